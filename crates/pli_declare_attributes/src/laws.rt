//! Laws of attributes, and worked examples.
ghost use Rattle.pli_declare_attributes.specs.laws.Laws.{SetsAreOfWhatStands, ResultsAreScalars};
ghost use Rattle.pli_declare_attributes.specs.laws.Laws.{ParametersAreOfScalars, VariablesAreOfScalars};
ghost use Rattle.pli_declare_attributes.specs.examples.Examples.{Defaults, StorageClasses, Arrays, Structures, Entries};
ghost use Rattle.pli_declare_attributes.specs.examples.Examples.{Asterisks, BadLengthStars, BadBoundStars};
ghost use Rattle.pli_declare_attributes.specs.examples.Examples.{TypesConflict, StorageConflicts, OtherConflicts};
ghost use Rattle.pli_declare_attributes.specs.examples.Examples.{Missing, BadNumbers, BadInitials, BadAreas};
ghost use Rattle.pli_declare_attributes.specs.examples.Examples.{PartsOfEntries};

/// Items with their faults, and what they are completed to.
pub fn worked_examples()
    ensures defaults { Defaults }
    ensures storage_classes { StorageClasses }
    ensures arrays { Arrays }
    ensures structures { Structures }
    ensures entries { Entries }
    ensures asterisks { Asterisks }
    ensures bad_length_stars { BadLengthStars }
    ensures bad_bound_stars { BadBoundStars }
    ensures types_conflict { TypesConflict }
    ensures storage_conflicts { StorageConflicts }
    ensures other_conflicts { OtherConflicts }
    ensures missing { Missing }
    ensures bad_numbers { BadNumbers }
    ensures bad_initials { BadInitials }
    ensures bad_areas { BadAreas }
    ensures parts_of_entries { PartsOfEntries }
{}

/// A law: an attribute is in the set exactly where it stands.
pub fn sets_are_of_what_stands()
    ensures { SetsAreOfWhatStands }
{}

/// A law: what has no fault has a type with its precision, length or size within the limits.
pub fn types_are_within_limits()
    ensures results { ResultsAreScalars }
    ensures parameters { ParametersAreOfScalars }
    ensures variables { VariablesAreOfScalars }
{}
