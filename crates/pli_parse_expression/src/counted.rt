//! What a reader gives that counts on its way.
ghost use Rattle.std.specs.Prelude.{◌≡◌};

use pli_base::{Front, TokenText};

/// A tree that was read, with a count: the operators of the outermost expression so far, or the number of the statement
/// that comes next.
#[derive(Drop)]
pub struct Counted<T> {
    pub tree: T,
    pub count: u32,
}

impl<T> Counted<T> {
    /// A tree that was read, with the count so far, and the place and the tokens after it.
    pub fn front<'a>(tree: T, count: u32, next: u32, rest: &'a [TokenText]) -> Front<'a, Counted<T>>
        ensures { result ≡ record { value = record { tree = tree; count = count }; next = next; rest = rest.entry } }
    {
        Front::new(Counted { tree, count }, next, rest)
    }
}
