//! Why bytes are no deck.
ghost use Rattle.std.specs.Prelude.{◌≡◌};
ghost use Rattle.pli_base.specs.declared.failure.Failure.TheVariants as failures;
ghost use Rattle.pli_code.specs.FaultNumbers.{fault_number};

use pli_base::Failure;

/// What is wrong with the bytes of a deck or of a module (own). The first four numbers and the fifth are met in reading
/// from the front; then the others are looked for in the order of their numbers.
#[derive(Clone, Copy, Debug, PartialEq, Eq)]
pub enum DeckFault {
    /// 1: the bytes do not begin as a deck or a module does.
    BadMagic,
    /// 2: another version.
    BadVersion,
    /// 3: the bytes end within an item.
    Truncated,
    /// 4: bytes stand after the last item.
    Trailing,
    /// 5: an unknown tag or instruction, or a field that is out of its range by itself.
    OutOfRange,
    /// 6: a jump to no instruction of the deck.
    BadJump,
    /// 7: a number of no entry of its table.
    BadNumber,
    /// 8: a template that is too large, templates with initial values that are too large together, or an initial value
    /// that fits no element where it stands.
    OverLimit,
}

impl DeckFault {
    /// Its number, from 1 to 8, by which it is cited after K for a deck and after L for a module.
    pub fn number(self) -> u8
        ensures { result ≡ fault_number self }
    {
        match self {
            DeckFault::BadMagic => 1,
            DeckFault::BadVersion => 2,
            DeckFault::Truncated => 3,
            DeckFault::Trailing => 4,
            DeckFault::OutOfRange => 5,
            DeckFault::BadJump => 6,
            DeckFault::BadNumber => 7,
            DeckFault::OverLimit => 8,
        }
    }
}

impl From<DeckFault> for Failure<DeckFault> {
    ghost from_gives = { λ f e. e ≡ failures.Fault f };

    fn from(fault: DeckFault) -> Failure<DeckFault> {
        Failure::Fault(fault)
    }
}
