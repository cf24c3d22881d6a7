//! Tests of what reads texts: the words of `pli_base`, the lexer, members and inclusion, the parsers, and what judges
//! and resolves declared names.
#![tactic(auto)]

#[cfg(test)]
mod tests;
