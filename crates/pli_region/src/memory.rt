//! Bytes of memory at a pointer.
ghost use Rattle.std.specs.Prelude.{◌≡◌, ◌+◌, ◌^◌, ◌<◌, ◌≤◌, ℕ, List, [], ◌∷◌, ◌++◌, length, take, drop, IfSome};
ghost use Rattle.std.specs.Borrow.{sem};
ghost use Rattle.pli_region.specs.Ownership.{block_of, bytes_at, owned, lent};
ghost use Rattle.pli_region.specs.Words.{overwritten};
ghost use base.Fml.{Share, fsep};
ghost use base.Fraction.{full_share};
ghost use denote.RawPtr.{Ptr};

use std::alloc::Allocator;
use std::marker::{Model, PhantomData};
use std::slice;

/// Bytes of memory that were written, and room for more after them.
pub struct Memory {
    ptr: *mut u8,
    ghost items: { List ℕ },
    ghost room: { ℕ },
}

impl Model for Memory {
    ghost also_owns = { λ m. owned m.ptr m.items m.room };

    ghost also_shares = { λ m _ κ. lent m.ptr m.items m.room κ };
}

/// The right to give memory back.
pub struct Lease<A: Allocator> {
    marker: PhantomData<A>,
    ghost alloc: { A },
    ghost ptr: { Ptr },
    ghost size: { ℕ },
}

impl<A: Allocator> Model for Lease<A> {
    ghost also_owns = { λ l. A.dealloc_token l.alloc (block_of l.size) l.ptr };
}

impl Memory {
    ghost use Rattle.pli_region.specs.Lends.{lends_part};

    /// Room for `size` bytes, and the right to give it back. `None` where the allocator refuses.
    pub(crate) fn reserve<A: Allocator>(alloc: &A, size: usize) -> Option<(Memory, Lease<A>)>
        requires { size < 2 ^ 63 }
        ensures memory { IfSome result (λ m. (m.0.items ≡ []) × (m.0.room ≡ size)) }
        ensures lease { IfSome result (λ m. (m.1.alloc ≡ alloc.now) × (m.1.ptr ≡ m.0.ptr) × (m.1.size ≡ size)) }
    {
        match alloc.allocate(size, 1) {
            Ok(ptr) => {
                let marker = PhantomData;
                Some((Memory { ptr }, Lease { marker }))
            }
            Err(_) => None,
        }
    }

    /// Writes one byte more, into the room at the place after all others.
    pub(crate) fn push(&mut self, at: usize, byte: u8)
        requires { (at ≡ length self.old.items) × (0 < self.old.room) }
        ensures items { self.new.items ≡ self.old.items ++ byte ∷ [] }
        ensures room { self.new.room + 1 ≡ self.old.room }
        ensures place { self.new.ptr ≡ self.old.ptr }
    {
        unsafe { self.ptr.add(at).write(byte) }
    }

    /// The four bytes from a place on.
    pub(crate) fn word(&self, at: usize) -> [u8; 4]
        requires { at + 4 ≤ length self.now.items }
        ensures { result ≡ take 4 (drop at self.now.items) }
    {
        unsafe { *(self.ptr.add(at) as *const [u8; 4]) }
    }

    /// Writes four bytes from a place on.
    pub(crate) fn set_word(&mut self, at: usize, word: [u8; 4])
        requires { at + 4 ≤ length self.old.items }
        ensures items { self.new.items ≡ overwritten self.old.items at word }
        ensures room { self.new.room ≡ self.old.room }
        ensures place { self.new.ptr ≡ self.old.ptr }
    {
        unsafe { *(self.ptr.add(at) as *mut [u8; 4]) = word }
    }

    /// So many bytes from a place on.
    pub(crate) fn part(&self, from: usize, count: usize) -> &[u8]
        requires { from + count ≤ length self.now.items }
        ensures { result.now ≡ take count (drop from self.now.items) }
    {
        unsafe { slice::from_raw_parts(self.ptr.add(from), count) }
    }

    /// The same, to be written.
    pub(crate) fn part_mut(&mut self, from: usize, count: usize) -> &mut [u8]
        requires { from + count ≤ length self.old.items }
        ensures* writes_back { sem 𝓛 (lends_part self.entry from count result) }
        ensures value { result.now ≡ take count (drop from self.old.items) }
    {
        unsafe { slice::from_raw_parts_mut(self.ptr.add(from), count) }
    }

    /// Copies so many bytes of other memory, those from the place `from` on, to the place `at`.
    pub(crate) fn copy(&mut self, source: &Memory, from: usize, at: usize, count: usize)
        requires source { from + count ≤ length source.now.items }
        requires target { at + count ≤ length self.old.items }
        ensures items { self.new.items ≡ overwritten self.old.items at (take count (drop from source.now.items)) }
        ensures room { self.new.room ≡ self.old.room }
        ensures place { self.new.ptr ≡ self.old.ptr }
    {
        unsafe { copy_bytes(source.ptr.add(from), self.ptr.add(at), count) }
    }

    /// Gives all back to the allocator.
    pub(crate) fn free<A: Allocator>(self, size: usize, lease: Lease<A>, alloc: &A)
        requires memory { length self.items + self.room ≡ size }
        requires lease { (lease.alloc ≡ alloc.now) × (lease.ptr ≡ self.ptr) × (lease.size ≡ size) }
    {
        let Memory { ptr } = self;
        let Lease { marker: _ } = lease;
        unsafe { alloc.deallocate(ptr, size, 1) }
    }
}

/// Copies so many bytes. A share of those that are read is enough.
unsafe fn copy_bytes(from: *const u8, to: *mut u8, count: usize)
    ghost g: { Share × List ℕ × List ℕ }
    requires lengths { (length g.1 ≡ count) × (length g.2 ≡ count) }
    requires* memory { sem 𝓛 (fsep (bytes_at g.0 from g.1) (bytes_at full_share to g.2)) }
    ensures* { sem 𝓛 (fsep (bytes_at g.0 from g.1) (bytes_at full_share to g.1)) }
{
    let mut i = 0;
    while i < count {
        unsafe { *to.add(i) = *from.add(i) };
        i += 1;
    }
}
