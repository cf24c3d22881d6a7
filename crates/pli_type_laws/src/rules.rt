//! Laws and worked examples of types and of their faults.
ghost use Rattle.pli_type_rules.specs.laws.Laws.{FaultsAreOfTypes};
ghost use Rattle.pli_type_laws.specs.laws.TextSorting.{TokensAreSorted};
ghost use Rattle.pli_type_laws.specs.examples.AllocationExamples.{WhatIsAllocated, WhatIsFreed, WhatIsCounted};
ghost use Rattle.pli_type_laws.specs.examples.AreaExamples.{LocatorsConvert, AreasAssigned, LocatorsWithin};
ghost use Rattle.pli_type_laws.specs.examples.AreaExamples.{BlocksOfAreas};
ghost use Rattle.pli_type_laws.specs.examples.FaultExamples.{OneFaultToAStatement, OperatorsTakeTheirTypes};
ghost use Rattle.pli_type_laws.specs.examples.FaultExamples.{AssignmentsConvert, AggregatesStandAlone};
ghost use Rattle.pli_type_laws.specs.examples.FaultExamples.{SubscriptsAreCounted};
ghost use Rattle.pli_type_laws.specs.examples.FaultExamples.{LocatorsAreNotAllowed, NamesOfNoVariable};
ghost use Rattle.pli_type_laws.specs.examples.FaultExamples.{FunctionsConvertNothing, BareConstants};
ghost use Rattle.pli_type_laws.specs.examples.ConditionExamples.{UnitsAreTyped};
ghost use Rattle.pli_type_laws.specs.examples.ControlExamples.{ControlVariables, CallsAreTyped, BlocksAreTyped};
ghost use Rattle.pli_type_laws.specs.examples.PointerExamples.{PointersAndNull, BasedReferences, Addresses};
ghost use Rattle.pli_type_laws.specs.examples.PointerExamples.{GenerationsByPointers};
ghost use Rattle.pli_type_laws.specs.examples.TypeExamples.{ConstantsAreDecimal, ConstantsHaveRoom};
ghost use Rattle.pli_type_laws.specs.examples.TypeExamples.{PrecisionsOfOperations};
ghost use Rattle.pli_type_laws.specs.examples.TypeExamples.{PrecisionsOfFunctions, KindsOfStrings, ColumnsOfNumbers};
ghost use Rattle.pli_type_laws.specs.examples.TypedExamples.{ConversionsStand, SubscriptsHaveStrides};
ghost use Rattle.pli_type_laws.specs.examples.UnitExamples.{InitialValues, CheckedUnits};
ghost use Rattle.pli_type_laws.specs.examples.NameExamples.{NamesOfUnit, VariablesOfUnit};
ghost use Rattle.pli_type_laws.specs.examples.OpenExamples.{StarsAreTyped};
ghost use Rattle.pli_type_laws.specs.examples.OrderExamples.{GlobalsOfUnit, TokensInOrder};

/// Worked examples of faults.
pub fn fault_examples()
    ensures statements { OneFaultToAStatement }
    ensures operators { OperatorsTakeTheirTypes }
    ensures assignments { AssignmentsConvert }
    ensures aggregates { AggregatesStandAlone }
    ensures subscripts { SubscriptsAreCounted }
    ensures locators { LocatorsAreNotAllowed }
    ensures names { NamesOfNoVariable }
    ensures functions { FunctionsConvertNothing }
    ensures constants { BareConstants }
{}

/// Worked examples of groups, calls, blocks and ON-units.
pub fn control_examples()
    ensures groups { ControlVariables }
    ensures calls { CallsAreTyped }
    ensures blocks { BlocksAreTyped }
    ensures units { UnitsAreTyped }
{}

/// Worked examples of ALLOCATE, FREE and ALLOCATION.
pub fn allocation_examples()
    ensures allocated { WhatIsAllocated }
    ensures freed { WhatIsFreed }
    ensures counted { WhatIsCounted }
{}

/// Worked examples of pointers and BASED variables.
pub fn pointer_examples()
    ensures pointers { PointersAndNull }
    ensures based { BasedReferences }
    ensures addresses { Addresses }
    ensures generations { GenerationsByPointers }
{}

/// Worked examples of areas and offsets.
pub fn area_examples()
    ensures locators { LocatorsConvert }
    ensures assigned { AreasAssigned }
    ensures within { LocatorsWithin }
    ensures blocks { BlocksOfAreas }
{}

/// Worked examples of types.
pub fn type_examples()
    ensures constants { ConstantsAreDecimal }
    ensures room { ConstantsHaveRoom }
    ensures operations { PrecisionsOfOperations }
    ensures functions { PrecisionsOfFunctions }
    ensures strings { KindsOfStrings }
    ensures columns { ColumnsOfNumbers }
{}

/// Worked examples of typed statements and references.
pub fn typed_examples()
    ensures conversions { ConversionsStand }
    ensures references { SubscriptsHaveStrides }
{}

/// Worked examples of parameters in which a `*` stands.
pub fn open_examples()
    ensures { StarsAreTyped }
{}

/// Worked examples of units.
#[tactic(auto, unfolding(pli_type_rules::specs::Checked::checked))]
pub fn unit_examples()
    ensures initial { InitialValues }
    ensures checked { CheckedUnits }
{}

/// A law: a unit that is not typed has a fault of types, or A11 at a GOTO, and no fault of another kind.
#[tactic(auto, using(crate::proofs::FaultCodes::faults_are_of_types))]
pub fn faults_are_of_types()
    ensures { FaultsAreOfTypes }
{}

/// A law: the order of the text has each number of a token once, by its token, and those of one token as they stood.
pub fn tokens_are_sorted()
    ensures { TokensAreSorted }
{}

/// Worked examples of what names of a resolved unit mean, of what its variables are made from, and of globals in the
/// order of the text.
pub fn name_examples()
    ensures names { NamesOfUnit }
    ensures variables { VariablesOfUnit }
    ensures globals { GlobalsOfUnit }
    ensures tokens { TokensInOrder }
{}
