//! Locators: values that tell where storage is.
ghost use Rattle.std.specs.Prelude.{◌≡◌};
ghost use Rattle.pli_value.specs.Locators.{is_null, same_locator};

/// A value of POINTER or OFFSET (X3.53).
#[derive(Clone, Copy, Debug, PartialEq, Eq)]
pub enum Locator {
    /// The null pointer.
    Null,
    /// A pointer to a generation, by its number, and there to a position: that of a block of an area, or 0 outside
    /// areas.
    Pointer { generation: u32, position: u32 },
    /// An offset: the position of a block of an area, or 0 where it is null.
    Offset(u32),
}

impl Locator {
    /// Whether it is the null pointer, or a null offset.
    pub fn is_null(self) -> bool
        ensures { result ≡ is_null self }
    {
        match self {
            Locator::Null => true,
            Locator::Pointer { .. } => false,
            Locator::Offset(position) => position == 0,
        }
    }

    /// Whether two pointers, or two offsets, are equal; a pointer equals no offset.
    pub fn equals(self, other: Locator) -> bool
        ensures { result ≡ same_locator self other }
    {
        self == other
    }
}
