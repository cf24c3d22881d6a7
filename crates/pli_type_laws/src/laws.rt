//! Laws of what the type checker gives.
ghost use Rattle.pli_type_laws.specs.ConstantLaws.{ConstantsAreAsWritten};
ghost use Rattle.pli_type_laws.specs.ExpressionTyping.{ConvertedIsHeld, PrintedIsString};
ghost use Rattle.pli_type_laws.specs.TypedUnits.{CheckedIsTyped, TypedUnitsAreNumbered, TypedUnitsAreTyped};

/// A law: what the type checker gives for a unit whose statements are numbered in the order of the text, and nest
/// within the limit, and in which it is known where BASED variables are named, is numbered well: each statement and
/// each block has a number of its own, no loop nests too deep, and the temporaries of iterations in one another, and of
/// the items of ALLOCATE in them, are apart.
pub fn typed_units_are_numbered()
    ensures { TypedUnitsAreNumbered }
{}

/// A law: the value of a constant within the limits of the language, as each constant of a text is, is what is written.
pub fn constants_are_as_written()
    ensures { ConstantsAreAsWritten }
{}

/// A law: a value of its type that is converted to the type of a variable can be assigned to it, where the area is
/// there that the variable's declaration names.
pub fn converted_is_held()
    ensures { ConvertedIsHeld }
{}

/// A law: a value of its type that is printed becomes a string.
pub fn printed_is_string()
    ensures { PrintedIsString }
{}

/// A law: what the type checker gives for a unit is well typed, where its names mean variables and procedures that are
/// there, its variables begin with values that they hold, and its procedures stand directly in blocks.
pub fn typed_units_are_typed()
    ensures { TypedUnitsAreTyped }
{}

/// A law: what the type checker gives for a unit that was read is well typed and numbered well.
pub fn checked_is_typed()
    ensures { CheckedIsTyped }
{}
