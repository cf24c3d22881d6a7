//! Generations that end.
ghost use Rattle.std.specs.Prelude.{◌≡◌, ◌<◌, ◌-◌, ◌∷◌, [], true, false, vec_len, vec_capacity};
ghost use Rattle.pli_world.specs.Storage.{without};
ghost use Rattle.pli_store.specs.answers.Found.{StandsAt};

use crate::generation::{take_newest, take_out};
use crate::storage::Storage;
use pli_area_blocks::AreaBlocks;

/// Gives up the blocks of an area.
#[inline(never)]
fn give_up_blocks(_area: Box<AreaBlocks<'_>>) {}

/// Gives up what a generation had for an area, if it was one.
#[inline(always)]
fn give_up(area: Option<Box<AreaBlocks<'_>>>) {
    if let Some(blocks) = area {
        give_up_blocks(blocks);
    }
}

impl Storage<'_> {
    ghost use Rattle.pli_store.specs.views.StorageView.{SameStorage, made_count, storage_view};

    /// The generations of these numbers end; a number of which none lives changes nothing. Fast where the newest stand
    /// last among the numbers.
    #[inline(always)]
    pub fn end(&mut self, numbers: &[u32])
        ensures storage { storage_view self.new ≡ without numbers.now (storage_view self.old) }
        ensures made { made_count self.new ≡ made_count self.old }
    {
        for at in (0..numbers.len()).rev() {
            self.end_one(numbers[at]);
        }
    }

    /// The generation of this number ends, which stands there among those that live.
    #[inline(always)]
    fn end_there(&mut self, _number: u32, at: usize)
        requires { StandsAt (storage_view self.old) _number at }
        ensures storage { storage_view self.new ≡ without (_number ∷ []) (storage_view self.old) }
        ensures made { made_count self.new ≡ made_count self.old }
    {
        let ended = take_out(&mut self.generations, at);
        self.live -= ended.bytes.len() as u32;
        self.spare.keep(ended.bytes);
        give_up(ended.area);
    }

    /// The generation of this number ends, which is the last of those that live.
    #[inline(always)]
    fn end_last(&mut self, _number: u32)
        requires some { 0 < vec_len self.old.generations }
        requires last { StandsAt (storage_view self.old) _number (vec_len self.old.generations - 1) }
        ensures storage { storage_view self.new ≡ without (_number ∷ []) (storage_view self.old) }
        ensures made { made_count self.new ≡ made_count self.old }
    {
        let last = take_newest(&mut self.generations);
        self.live -= last.bytes.len() as u32;
        self.spare.keep(last.bytes);
        give_up(last.area);
    }

    /// The generation of this number ends, if it lives.
    #[inline(never)]
    fn end_further(&mut self, number: u32)
        ensures storage { storage_view self.new ≡ without (number ∷ []) (storage_view self.old) }
        ensures made { made_count self.new ≡ made_count self.old }
    {
        let last = self.generations.len().saturating_sub(1);
        if let Some(at) = self.find(number, last) {
            self.end_there(number, at);
        }
    }

    /// The same, where the one that was made last is found at once.
    #[inline(always)]
    pub fn end_one(&mut self, number: u32)
        ensures storage { storage_view self.new ≡ without (number ∷ []) (storage_view self.old) }
        ensures made { made_count self.new ≡ made_count self.old }
    {
        let Some(last) = self.generations.len().checked_sub(1) else {
            self.end_further(number);
            return;
        };
        if self.generations[last].number == number {
            self.end_last(number);
        } else {
            self.end_further(number);
        }
    }

    /// The generation of this number ends, where that is done at once: it is the last of those that live, and there is
    /// room to keep its memory. `false` where it does not end, and nothing has changed then.
    #[inline(always)]
    pub fn end_at_once(&mut self, number: u32) -> bool
        ensures ended { result ≡ true → storage_view self.new ≡ without (number ∷ []) (storage_view self.old) }
        ensures made { made_count self.new ≡ made_count self.old }
        ensures same { result ≡ false → SameStorage self.old self.new }
    {
        let Some(last) = self.generations.len().checked_sub(1) else {
            return false;
        };
        let newest = &self.generations[last];
        if newest.number != number {
            return false;
        }
        if !self.spare.keeps(newest.bytes.len()) {
            return false;
        }
        self.end_kept(number);
        true
    }

    /// The generation of this number ends, which is the last of those that live, and whose memory there is room to keep.
    #[inline(always)]
    fn end_kept(&mut self, _number: u32)
        requires some { 0 < vec_len self.old.generations }
        requires last { StandsAt (storage_view self.old) _number (vec_len self.old.generations - 1) }
        requires room { vec_len self.old.spare.kept < vec_capacity self.old.spare.kept }
        ensures storage { storage_view self.new ≡ without (_number ∷ []) (storage_view self.old) }
        ensures made { made_count self.new ≡ made_count self.old }
    {
        let ended = take_newest(&mut self.generations);
        let size = ended.bytes.len() as u32;
        self.live -= size;
        self.spare.keep_reserved(ended.bytes);
        give_up(ended.area);
    }
}
