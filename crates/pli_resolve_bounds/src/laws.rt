//! Laws of the limits of symbols and of the numbers of statements.
ghost use Rattle.pli_resolve_bounds.specs.SymbolBounds.{ParametersAreFew, SymbolsAreLimited};
ghost use Rattle.pli_resolve_bounds.specs.StatementNumbers.{StatementsAreFew};

/// A law: where the declarations of a unit have no fault, each variable and each parameter of an entry has a
/// description within the limits: its precisions, lengths, dimensions and bounds, how deep it nests and how many bytes
/// it takes; so have results; where a `*` stands in a parameter, so is what is written of it; and an entry has at most
/// 64 parameters.
pub fn symbols_are_limited()
    ensures { SymbolsAreLimited }
{}

/// A law: where the declarations of a unit have no fault, none of its procedures has more than 64 parameters.
pub fn parameters_are_few()
    ensures { ParametersAreFew }
{}

/// A law: in a unit that is read the number of each statement, and of each END, is less than there are tokens.
pub fn statements_are_few()
    ensures { StatementsAreFew }
{}
