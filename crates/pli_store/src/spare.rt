//! The memory of generations that have ended, kept for those that are made.
ghost use Rattle.std.specs.Prelude.{IfOk, IfSome, drop, length, take, true, vec_len, vec_capacity, ◌++◌, ◌<◌, ◌≡◌, ◌≤◌};

use std::alloc::{AllocError, Global};

/// For how many generations memory is kept at most (own).
const KEPT_LIMIT: usize = 16_384;

/// How many bytes a generation takes at most whose memory is kept (own).
const KEPT_BYTES: usize = 256;

/// As many bytes as that, whatever they are.
#[inline(never)]
fn resized(mut bytes: Vec<u8>, size: usize) -> Result<Vec<u8>, AllocError>
    ensures { IfOk result (λ bytes. length bytes.items ≡ size) }
{
    bytes.resize(size, 0)?;
    Ok(bytes)
}

/// Puts four bytes in the place of the first four.
#[inline(always)]
fn put_four(own: &mut [u8], bytes: &[u8])
    requires own { 4 ≤ length own.old }
    requires bytes { 4 ≤ length bytes.now }
    ensures { own.new ≡ take 4 bytes.now ++ drop 4 own.old }
{
    own[..4].copy_from_slice(&bytes[..4]);
}

/// The same of eight.
#[inline(always)]
fn put_eight(own: &mut [u8], bytes: &[u8])
    requires own { 8 ≤ length own.old }
    requires bytes { 8 ≤ length bytes.now }
    ensures { own.new ≡ take 8 bytes.now ++ drop 8 own.old }
{
    own[..8].copy_from_slice(&bytes[..8]);
}

/// Puts bytes in the place of as many. Four and eight, as numbers and pointers have, take a short way.
#[inline(always)]
fn put_all(own: &mut [u8], bytes: &[u8])
    requires { length own.old ≡ length bytes.now }
    ensures { own.new ≡ bytes.now }
{
    if own.len() == 4 {
        put_four(own, bytes);
    } else if own.len() == 8 {
        put_eight(own, bytes);
    } else {
        own.copy_from_slice(bytes);
    }
}

/// Memory of small generations. What stood in it means nothing.
#[derive(Drop)]
pub struct SpareBytes {
    kept: Vec<Vec<u8>>,
}

impl SpareBytes {
    /// None yet.
    pub fn new(alloc: Global) -> SpareBytes {
        SpareBytes {
            kept: Vec::new(alloc),
        }
    }

    /// So many bytes, whatever they are, in memory that was kept if there is any.
    #[inline]
    pub fn take(&mut self, alloc: Global, size: usize) -> Result<Vec<u8>, AllocError>
        ensures { IfOk result (λ bytes. length bytes.items ≡ size) }
    {
        let mut bytes = match self.kept.pop() {
            Some(bytes) => bytes,
            None => Vec::new(alloc),
        };
        bytes.resize(size, 0)?;
        Ok(bytes)
    }

    /// The same in memory that was kept for as many, if the next that was kept is.
    #[inline(always)]
    pub fn take_kept(&mut self, size: usize) -> Option<Vec<u8>>
        ensures { IfSome result (λ bytes. length bytes.items ≡ size) }
    {
        let mut bytes = self.kept.pop()?;
        if bytes.len() < size {
            return None;
        }
        bytes.truncate(size);
        Some(bytes)
    }

    /// A copy of these bytes, in memory that was kept if there is any.
    #[inline(always)]
    pub fn copied(&mut self, alloc: Global, bytes: &[u8]) -> Result<Vec<u8>, AllocError>
        ensures { IfOk result (λ own. own.items ≡ bytes.now) }
    {
        let mut own = match self.kept.pop() {
            Some(kept) => kept,
            None => Vec::new(alloc),
        };
        if own.len() != bytes.len() {
            own = resized(own, bytes.len())?;
        }
        put_all(&mut own, bytes);
        Ok(own)
    }

    /// The memory that was kept last, if that was for as many bytes.
    #[inline(always)]
    fn take_alike(&mut self, size: usize) -> Option<Vec<u8>>
        ensures { IfSome result (λ bytes. length bytes.items ≡ size) }
    {
        let bytes = self.kept.pop()?;
        if bytes.len() == size {
            return Some(bytes);
        }
        self.kept.push_reserved(bytes);
        None
    }

    /// A copy of so many bytes in the memory that was kept last, if that was for as many.
    #[inline(always)]
    pub fn copied_alike(&mut self, bytes: &[u8], size: usize) -> Option<Vec<u8>>
        requires { length bytes.now ≡ size }
        ensures { IfSome result (λ own. own.items ≡ bytes.now) }
    {
        let mut own = self.take_alike(size)?;
        put_all(&mut own, bytes);
        Some(own)
    }

    /// Whether there is room to keep the memory of a generation of so many bytes.
    #[inline(always)]
    pub fn keeps(&self, size: usize) -> bool
        ensures { result ≡ true → vec_len self.now.kept < vec_capacity self.now.kept }
    {
        size <= KEPT_BYTES && self.kept.len() < self.kept.capacity()
    }

    /// Keeps memory that there is room to keep.
    #[inline(always)]
    pub fn keep_reserved(&mut self, bytes: Vec<u8>)
        requires { vec_len self.old.kept < vec_capacity self.old.kept }
    {
        self.kept.push_reserved(bytes);
    }

    /// Keeps the memory of a small generation; any other is dropped, and also this where there is none to note it.
    #[inline(always)]
    pub fn keep(&mut self, bytes: Vec<u8>) {
        if self.keeps(bytes.len()) {
            self.keep_reserved(bytes);
        } else {
            self.keep_further(bytes);
        }
    }

    /// The same where there may be no memory yet to note it.
    #[inline(never)]
    fn keep_further(&mut self, bytes: Vec<u8>) {
        if bytes.len() <= KEPT_BYTES && self.kept.len() < KEPT_LIMIT {
            let _bytes = self.kept.push(bytes);
        }
    }
}
