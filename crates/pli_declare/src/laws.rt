//! A law of the faults of declarations; worked examples of them, and of resolved units.
ghost use Rattle.pli_declare.specs.laws.FaultLaws.{FaultsAreLeastCodes};
ghost use Rattle.pli_declare.specs.examples.ResolutionExamples.{OfOneName, OfItems, TwoMembers, UndeclaredNames};
ghost use Rattle.pli_declare.specs.examples.ResolutionExamples.{Groups, Units, Blocks, Locators, Parameters};
ghost use Rattle.pli_declare.specs.examples.ResolvedExamples.{OneVariable, Hiding, Jump, Located, Areas, OfMembers};

/// A law: a fault is answered exactly where a declared name, a parameter, a reference or a label at its token has its
/// code as the least, both ways.
pub fn faults_are_least_codes()
    ensures { FaultsAreLeastCodes }
{}

/// Outlines of units with their faults.
pub fn worked_examples()
    ensures of_one_name { OfOneName }
    ensures of_items { OfItems }
    ensures two_members { TwoMembers }
    ensures undeclared_names { UndeclaredNames }
    ensures groups { Groups }
    ensures units { Units }
    ensures blocks { Blocks }
    ensures locators { Locators }
    ensures parameters { Parameters }
{}

/// Units without faults, resolved.
pub fn resolved_examples()
    ensures one_variable { OneVariable }
    ensures hiding { Hiding }
    ensures jump { Jump }
    ensures located { Located }
    ensures areas { Areas }
    ensures of_members { OfMembers }
{}
