//! Marks, one for each 8 bytes of an area, which say where headers of blocks are.
ghost use Rattle.std.specs.Prelude.{◌≡◌, ◌≢◌, ℕ, ◌+◌, ◌-◌, ◌/◌, ◌<◌, ◌≤◌, ◌++◌, false, true, length, take, replicate};
ghost use Rattle.std.specs.Prelude.{slice_index_or, slice_set, IfOk};
ghost use Rattle.pli_area.specs.Held.{is_marked};
ghost use Rattle.pli_area.specs.MarkBits.{IsCut, has_bit, marks_of};

use std::alloc::{AllocError, Global};
use std::marker::Model;

const WORD_BITS: usize = 64;

/// Marks that are set or not. Contracts see the list of these.
#[derive(Drop)]
pub(crate) struct Marks {
    /// The mark of a number is the bit `number % 64` of the word `number / 64`.
    words: Vec<u64>,
    count: usize,
}

impl Model for Marks {
    ghost use Rattle.std.specs.Prelude.{Bool, List, ◌≡◌, ◌+◌, ◌/◌, length};
    ghost use Rattle.pli_area.specs.MarkBits.{marks_of};

    ghost Value = { List Bool };

    ghost view = { λ m. marks_of m.words.items 0 m.count };

    ghost invariant = { λ m. length m.words.items ≡ m.count / 64 + 1 };
}

impl Marks {
    /// So many marks, none of them set. Takes memory; no other call takes any.
    pub(crate) fn new(alloc: Global, count: usize) -> Result<Marks, AllocError>
        ensures { IfOk result (λ marks. marks ≡ replicate count false) }
    {
        let words = zero_words(alloc, count / WORD_BITS + 1)?;
        Ok(Marks { words, count })
    }

    /// Whether there is a mark of a number, the first being 0, and it is set.
    fn is_set(&self, number: usize) -> bool
        ensures { result ≡ slice_index_or self.now number false }
    {
        number < self.count && has_bit(self.words[number / WORD_BITS], number % WORD_BITS)
    }

    /// Sets the mark of a number, or takes it back.
    pub(crate) fn set(&mut self, number: usize, is_set: bool)
        requires { number < length self.old }
        ensures { self.new ≡ slice_set self.old number is_set }
    {
        let place = number / WORD_BITS;
        self.words[place] = with_bit(self.words[place], number % WORD_BITS, is_set);
    }

    /// Takes all marks back.
    pub(crate) fn clear(&mut self)
        ensures { self.new ≡ replicate (length self.old) false }
    {
        clear_words(&mut self.words);
    }

    /// Has as many marks of others as said in the place of its first, and none after these.
    pub(crate) fn take_over(&mut self, others: &Marks, count: usize)
        requires short { count ≤ length self.old }
        requires long { count ≤ length others.now }
        ensures { self.new ≡ take count others.now ++ replicate (length self.old - count) false }
    {
        take_front(
            &mut self.words,
            &others.words,
            count / WORD_BITS,
            count % WORD_BITS,
        );
    }
}

/// So many words, all 0.
fn zero_words(alloc: Global, count: usize) -> Result<Vec<u64>, AllocError>
    ensures { IfOk result (λ words. words.items ≡ replicate count 0) }
{
    vec![in alloc; 0; count]
}

/// Makes all words 0.
fn clear_words(words: &mut Vec<u64>)
    ensures { words.new.items ≡ replicate (length words.old.items) 0 }
{
    words.fill(0);
}

/// Whether a word has a bit, the lowest being 0.
fn has_bit(word: u64, bit: usize) -> bool
    requires { bit < 64 }
    ensures { result ≡ has_bit word bit }
{
    word >> bit & 1 == 1
}

/// A word with a bit set, or taken back.
fn with_bit(word: u64, bit: usize, is_set: bool) -> u64
    requires { bit < 64 }
    ensures same { has_bit result bit ≡ is_set }
    ensures others { (other : ℕ) → other < 64 → other ≢ bit → has_bit result other ≡ has_bit word other }
{
    if is_set {
        word | 1 << bit
    } else {
        word & !(1 << bit)
    }
}

/// The lowest bits of a word.
fn lowest_bits(word: u64, bits: usize) -> u64
    requires { bits < 64 }
    ensures kept { (bit : ℕ) → bit < bits → has_bit result bit ≡ has_bit word bit }
    ensures others { (bit : ℕ) → bits ≤ bit → has_bit result bit ≡ false }
{
    word & ((1 << bits) - 1)
}

/// Puts so many words of others in the place of the first, then so many of the lowest bits of the next, and 0 after.
fn put_front(words: &mut [u64], others: &[u64], whole: usize, bits: usize)
    requires few { bits < 64 }
    requires short { whole < length words.old }
    requires long { whole < length others.now }
    ensures count { length words.new ≡ length words.old }
    ensures cut { IsCut words.new others.now whole bits }
{
    words.fill(0);
    words[..whole].copy_from_slice(&others[..whole]);
    words[whole] = lowest_bits(others[whole], bits);
}

/// The same of words that are owned.
fn take_front(words: &mut Vec<u64>, others: &[u64], whole: usize, bits: usize)
    requires few { bits < 64 }
    requires short { whole < length words.old.items }
    requires long { whole < length others.now }
    ensures count { length words.new.items ≡ length words.old.items }
    ensures cut { IsCut words.new.items others.now whole bits }
{
    put_front(words.as_mut_slice(), others, whole, bits);
}

/// Whether the header of a block at a position is marked.
pub(crate) fn is_marked(marks: &Marks, position: u32) -> bool
    ensures { result ≡ is_marked marks.now position }
{
    position % 8 == 0 && position > 0 && marks.is_set(position as usize / 8 - 1)
}
