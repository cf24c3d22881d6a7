//! Laws of the encoding.
ghost use Rattle.pli_gen.specs.laws.Laws.{CodeIsLookedUp, NumbersAreFound};

/// The tables of a unit's code have what its instructions and blocks name.
pub fn code_is_looked_up()
    ensures { CodeIsLookedUp }
{}

/// Where no table has an entry twice, what is looked up has the numbers by which it was found.
pub fn numbers_are_found()
    ensures { NumbersAreFound }
{}
