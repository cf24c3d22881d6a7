//! The code that the generator gives matches the translation, and so does what the program means.
#![tactic(auto)]

ghost use Rattle.pli_gen_stands.specs.Laws.{CodeStands, ProgramsRunAsMeant};

/// The code of a program whose units are numbered well matches the translation, form by form, and so do its
/// globals, where external variables have the numbers of their names, and entries those of the units that have their
/// procedures.
pub fn code_stands()
    ensures { CodeStands }
{}

/// For a well-typed program whose units are numbered well, and every number of steps: the program has a meaning, and
/// the run of its module, with the code of each unit and the links of its globals, gives that, and nothing else.
pub fn programs_run_as_meant()
    ensures { ProgramsRunAsMeant }
{}
