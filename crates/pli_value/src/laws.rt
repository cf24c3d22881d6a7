//! Laws and worked examples of the operations on values.
ghost use Rattle.pli_value.specs.Locators.{SameLocatorIsEqual};
ghost use Rattle.pli_value.specs.examples.NumberExamples.{GreatestNumbers, WidestNumbers, Quotients, Remainders};
ghost use Rattle.pli_value.specs.examples.NumberExamples.{SignsAndOrders};
ghost use Rattle.pli_value.specs.Numbers.{RemaindersAreLeast};
ghost use Rattle.pli_value.specs.examples.StringExamples.{CharacterOrders, BitOrders, Places, Parts, Assigned};
ghost use Rattle.pli_value.specs.examples.StringExamples.{BitOperations, Converted, Conditions, Packed};
ghost use Rattle.pli_value.specs.Strings.{IndexIsTheFirstPlace};

/// A law: what MOD gives is the least number from 0 on from which the first operand differs by a multiple of the
/// second.
pub fn remainders_are_least()
    ensures { RemaindersAreLeast }
{}

/// A law: INDEX is the first place, from 1 on, at which a string stands in another, and 0 where it stands nowhere.
pub fn index_is_the_first_place()
    ensures { IndexIsTheFirstPlace }
{}

/// A law: the test for equality of locators holds exactly of equal ones.
#[tactic(auto, using(crate::specs::laws::LocatorLaws::locator_decides))]
pub fn same_locator_is_equal()
    ensures { SameLocatorIsEqual }
{}

/// Worked examples of numbers.
pub fn number_examples()
    ensures greatest { GreatestNumbers }
    ensures widest { WidestNumbers }
    ensures quotients { Quotients }
    ensures remainders { Remainders }
    ensures signs { SignsAndOrders }
{}

/// Worked examples of strings.
pub fn string_examples()
    ensures character_orders { CharacterOrders }
    ensures bit_orders { BitOrders }
    ensures places { Places }
    ensures parts { Parts }
    ensures assigned { Assigned }
    ensures bit_operations { BitOperations }
    ensures converted { Converted }
    ensures conditions { Conditions }
    ensures packed { Packed }
{}
