//! What is fixed for the generations of one description, and generations that are made of it at once.
ghost use Rattle.std.specs.Prelude.{◌≡◌, ◌≢◌, ◌<◌, List, [], length, vec_len, vec_capacity, true, false, OnErr};
ghost use Rattle.std.specs.Option.{is_some};
ghost use Rattle.pli_bytes.specs.Contents.{values_of};
ghost use Rattle.pli_map.specs.Marks.{HasElements, HasMark};
ghost use Rattle.pli_map.specs.Scalars.{is_area, scalars_of};
ghost use Rattle.pli_map.specs.Sizes.{size_of};
ghost use Rattle.pli_map.specs.Values.{are_held};
ghost use Rattle.pli_map.specs.views.DescriptionView.{description_view};
ghost use Rattle.pli_value.specs.Value as plain;
ghost use Rattle.pli_world.specs.Storage.{whole};
ghost use Rattle.pli_world.specs.World.{World, Yields, made_of};
ghost use Rattle.pli_store.specs.answers.Answered.{Answered};
ghost use Rattle.pli_store.specs.answers.Begins.{BeginsWith};
ghost use Rattle.pli_store.specs.answers.Inhabited.{blocks_in, capacity_in};
ghost use Rattle.pli_store.specs.answers.Kinds.{digits_in};
ghost use Rattle.pli_store.specs.views.GenerationView.{made_view};

use crate::blocks::new_area;
use crate::fault::StoreFault;
use crate::generation::{Generation, Made};
use crate::place::{Place, digits_of};
use crate::reserving::reserve_one;
use crate::storage::Storage;
use pli_area_blocks::AreaBlocks;
use pli_map::{Description, is_area, mark_at_once, mark_of_elements, size_at_once};
use pli_run::RunError;
use std::alloc::Global;

/// What is fixed for all generations of a description, so that it is asked of the description once.
#[derive(Clone, Copy)]
pub struct Kind<'m> {
    pub description: &'m Description,
    /// How many bytes it takes, where they are four or eight and it is no area; else 0.
    short: u8,
    /// The rest as a generation of it keeps it.
    digits: u8,
    elements: u16,
    mark: u64,
    ghost few: { short ≢ 0 → (size_of (description_view description.now) ≡ short)
        × (is_area (description_view description.now) ≡ false) },
    ghost alone: { digits ≡ digits_in (description_view description.now) },
    ghost alike: { HasElements (description_view description.now) elements },
    ghost marked: { HasMark (description_view description.now) mark },
}

/// A generation, by its number and where it stood among those that lived when it was made.
#[derive(Clone, Copy)]
pub struct Handle {
    pub number: u32,
    hint: u32,
}

impl Handle {
    /// Of these.
    #[inline(always)]
    fn of(number: u32, hint: u32) -> Handle
        ensures { result.number ≡ number }
    {
        Handle { number, hint }
    }
}

/// How many bytes a description takes, where they are four or eight and it is no area; else 0.
fn short_size(description: &Description) -> u8
    ensures { result ≢ 0 → (size_of (description_view description.now) ≡ result)
        × (is_area (description_view description.now) ≡ false) }
{
    if is_area(description) {
        return 0;
    }
    match size_at_once(description) {
        4 => 4,
        8 => 8,
        _ => 0,
    }
}

impl<'m> Kind<'m> {
    ghost use Rattle.pli_store.specs.views.StorageView.{place_view};

    /// That of the generations of a description.
    pub fn of(description: &'m Description) -> Kind<'m>
        ensures { result.description.now ≡ description.now }
    {
        Kind {
            description,
            short: short_size(description),
            digits: digits_of(description),
            elements: mark_of_elements(description),
            mark: mark_at_once(description),
        }
    }

    /// The place of the whole of a generation of this kind.
    #[inline(always)]
    pub fn place(&self, handle: Handle) -> Place<'m>
        ensures { place_view result ≡ whole handle.number (description_view self.now.description.now) }
    {
        Place::of_alone(handle.number, handle.hint, self.digits, self.description)
    }
}

impl<'m> Storage<'m> {
    ghost use Rattle.pli_store.specs.views.StorageView.{RoomFor, SameStorage, made_count, with_storage};

    /// The generation that is made next.
    #[inline(always)]
    pub fn next_handle(&self) -> Handle
        ensures { result.number ≡ made_count self.now }
    {
        Handle::of(self.made, self.generations.len() as u32)
    }

    /// A new generation as `make_next` makes it, where that is done at once: it is no area, begins with four or eight
    /// bytes, and there is room for it, and memory that one of as many has left. `false` where it is not made, and
    /// nothing has changed then.
    #[inline(always)]
    pub fn make_at_once(&mut self, kind: &Kind<'m>, made: Made, bytes: &[u8]) -> bool
        requires { length bytes.now ≡ size_of (description_view kind.now.description.now) }
        ensures made { result ≡ true → (w : World) (vs : List plain.Value) →
            BeginsWith (description_view kind.now.description.now) bytes.now vs →
            made_of (description_view kind.now.description.now) (made_view made) vs (with_storage self.old w)
            ≡ Yields (whole (made_count self.old) (description_view kind.now.description.now))
            (with_storage self.new w) }
        ensures same { result ≡ false → SameStorage self.old self.new }
    {
        // Their number is a constant then.
        match kind.short {
            4 => self.make_short(kind, made, bytes, 4),
            8 => self.make_short(kind, made, bytes, 8),
            _ => false,
        }
    }

    /// The same, where it is no area and takes so many bytes.
    #[inline(always)]
    fn make_short(&mut self, kind: &Kind<'m>, made: Made, bytes: &[u8], size: u8) -> bool
        requires plain { is_area (description_view kind.now.description.now) ≡ false }
        requires size { size_of (description_view kind.now.description.now) ≡ size }
        requires bytes { length bytes.now ≡ size }
        ensures made { result ≡ true → (w : World) (vs : List plain.Value) →
            BeginsWith (description_view kind.now.description.now) bytes.now vs →
            made_of (description_view kind.now.description.now) (made_view made) vs (with_storage self.old w)
            ≡ Yields (whole (made_count self.old) (description_view kind.now.description.now))
            (with_storage self.new w) }
        ensures same { result ≡ false → SameStorage self.old self.new }
    {
        if !self.has_room_for(u64::from(size)) {
            return false;
        }
        if self.generations.len() == self.generations.capacity() {
            return false;
        }
        let Some(own) = self.spare.copied_alike(bytes, usize::from(size)) else {
            return false;
        };
        self.add_of(kind, made, own, None);
        true
    }

    /// A new generation as `make_next` makes it, of this kind.
    #[inline(always)]
    pub fn make_of(
        &mut self,
        alloc: Global,
        kind: &Kind<'m>,
        made: Made,
        bytes: &[u8],
    ) -> Result<(), StoreFault>
        requires { length bytes.now ≡ size_of (description_view kind.now.description.now) }
        ensures answer { (w : World) (vs : List plain.Value) →
            BeginsWith (description_view kind.now.description.now) bytes.now vs
            → Answered (λ _. whole (made_count self.old) (description_view kind.now.description.now)) result
            (with_storage self.old w) (with_storage self.new w)
            (made_of (description_view kind.now.description.now) (made_view made) vs (with_storage self.old w)) }
        ensures err { OnErr result (SameStorage self.old self.new) }
    {
        if !self.has_room_for(bytes.len() as u64) {
            return Err(StoreFault::Raised(RunError::StorageLimit));
        }
        let own = self.spare.copied(alloc, bytes)?;
        let area = new_area(self.alloc, kind.description)?;
        reserve_one(&mut self.generations)?;
        self.add_of(kind, made, own, area);
        Ok(())
    }

    /// A new generation of this kind with these bytes, and blocks if it is an area, of which there are none yet; there is
    /// room for it, and memory to note it.
    #[inline(always)]
    fn add_of(
        &mut self,
        kind: &Kind<'m>,
        made: Made,
        bytes: Vec<u8>,
        area: Option<Box<AreaBlocks<'m>>>,
    )
        requires there { is_some area ≡ is_area (description_view kind.now.description.now) }
        requires capacity { is_area (description_view kind.now.description.now) ≡ true →
            capacity_in area ≡ size_of (description_view kind.now.description.now) }
        requires blocks { blocks_in area ≡ [] }
        requires room { RoomFor true self.old (description_view kind.now.description.now) }
        requires size { length bytes.items ≡ size_of (description_view kind.now.description.now) }
        requires memory { vec_len self.old.generations < vec_capacity self.old.generations }
        ensures { (w : World) → are_held (scalars_of (description_view kind.now.description.now))
            (values_of (description_view kind.now.description.now) bytes.items) ≡ true
            → made_of (description_view kind.now.description.now) (made_view made)
            (values_of (description_view kind.now.description.now) bytes.items) (with_storage self.old w)
            ≡ Yields (whole (made_count self.old) (description_view kind.now.description.now))
            (with_storage self.new w) }
    {
        let size = bytes.len() as u32;
        self.generations.push_reserved(Generation {
            number: self.made,
            digits: kind.digits,
            made,
            elements: kind.elements,
            mark: kind.mark,
            description: kind.description,
            bytes,
            area,
        });
        self.made += 1;
        self.live += size;
    }
}
