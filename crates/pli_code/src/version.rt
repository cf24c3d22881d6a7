//! Versions of decks and modules.
ghost use Rattle.std.specs.Prelude.{◌≡◌, ◌≤◌};
ghost use Rattle.pli_code.specs.Versions.{greatest_precision, has_stars, same_version, version_number};

/// The version of the bytes of a deck or a module, which says how wide its numbers are and whether it has asterisks.
#[derive(Clone, Copy, Debug, PartialEq, Eq)]
pub enum Version {
    /// Numbers of at most 31 binary digits, in four bytes.
    First,
    /// Numbers of at most 63 binary digits, in eight bytes.
    Second,
    /// The same, and types of parameters with a `*`, with the instructions for them.
    Third,
}

impl Version {
    /// The version in which decks and modules are written.
    pub const WRITTEN: Version = Version::Third;

    /// Its number, from 1 to 3, which stands in the bytes.
    pub fn number(self) -> u8
        ensures { result ≡ version_number self }
    {
        match self {
            Version::First => 1,
            Version::Second => 2,
            Version::Third => 3,
        }
    }

    /// The greatest precision of its numbers: 31 or 63.
    #[inline]
    pub fn greatest_precision(self) -> u8
        ensures value { result ≡ greatest_precision self }
        ensures few { result ≤ 63 }
    {
        match self {
            Version::First => 31,
            Version::Second => 63,
            Version::Third => 63,
        }
    }

    /// Whether types with a `*`, and the instructions for them, may stand in it.
    pub fn has_stars(self) -> bool
        ensures { result ≡ has_stars self }
    {
        match self {
            Version::First => false,
            Version::Second => false,
            Version::Third => true,
        }
    }

    /// Whether it is this version.
    pub fn is(self, other: Version) -> bool
        ensures { result ≡ same_version self other }
    {
        self.number() == other.number()
    }
}
