//! What a reference means.
ghost use Rattle.std.specs.Prelude.{◌≡◌};
ghost use Rattle.pli_declare_scopes.specs.Scopes.{with_number, meant_there};

/// What items of a block fit a reference: none, just one, by its number, or several.
#[derive(Clone, Copy, PartialEq, Eq)]
pub enum Found {
    Nothing,
    One(usize),
    Several,
}

/// What a reference means. Names of built-in functions are the caller's.
#[derive(Clone, Copy, PartialEq, Eq)]
pub enum ReferenceMeaning {
    /// The item of this number in a block, and how many blocks outwards that is: 0 for the innermost.
    Item { number: usize, block: usize },
    /// A10 AMBIGUOUS: two items or more, with nothing to prefer one.
    Ambiguous,
    /// A1 NOT DECLARED.
    NotDeclared,
}

impl Found {
    /// With one more number.
    pub fn with_number(self, number: usize) -> Found
        ensures { result ≡ with_number number self }
    {
        match self {
            Found::Nothing => Found::One(number),
            Found::One(_) | Found::Several => Found::Several,
        }
    }

    /// What this means in the block that is so many blocks outwards.
    pub fn meant(self, block: usize) -> ReferenceMeaning
        ensures { result ≡ meant_there block self }
    {
        match self {
            Found::Nothing => ReferenceMeaning::NotDeclared,
            Found::One(number) => ReferenceMeaning::Item { number, block },
            Found::Several => ReferenceMeaning::Ambiguous,
        }
    }
}
