//! The names of a reference.
ghost use Rattle.std.specs.Prelude.{◌≡◌, ◌∷◌, []};
ghost use Rattle.pli_declare_outline.specs.views.NamesView.{names_view};

use pli_base::syntax::Identifier;

/// The names of a reference between its arrows. Most references have one, which takes no memory of its own. Contracts
/// see the list of them.
#[derive(Drop)]
pub enum UsedNames {
    One([Identifier; 1]),
    Several(Vec<Identifier>),
}

impl UsedNames {
    /// One name.
    pub fn one(name: Identifier) -> UsedNames
        ensures { names_view result ≡ name ∷ [] }
    {
        UsedNames::One([name])
    }

    /// All of them, in the order of the text.
    pub fn as_slice(&self) -> &[Identifier]
        ensures { result.now ≡ names_view self.now }
    {
        match self {
            UsedNames::One(name) => name.as_slice(),
            UsedNames::Several(names) => names.as_slice(),
        }
    }
}
