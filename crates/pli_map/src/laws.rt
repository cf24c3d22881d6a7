//! Laws and worked examples of sizes and places, of scalars, of subscripts and of stored values.
ghost use Rattle.pli_map.specs.examples.Examples.{ScalarSizes, MixedMembers, WideMembers, RowMajorOrder};
ghost use Rattle.pli_map.specs.examples.Examples.{StridesAreAligned, NoElements};
ghost use Rattle.pli_map.specs.laws.Laws.{PartsDoNotMeet, PartsLieWithin, PartsStandAligned, FourAlignments};
ghost use Rattle.pli_map.specs.laws.Laws.{AreasAreRounded, ElementsAreWithinBounds, ElementsAreInRowMajorOrder};
ghost use Rattle.pli_map.specs.laws.Laws.{ElementsAreCounted, SameIsEqual};
ghost use Rattle.pli_map.specs.examples.ParameterExamples.{StringsAgree, ArraysAgree, ElementsAreOpen};
ghost use Rattle.pli_map.specs.examples.ParameterExamples.{DimensionsAreKnown};
ghost use Rattle.pli_map.specs.examples.ScalarExamples.{CountedScalars, FoundScalars, NamedSubscripts};
ghost use Rattle.pli_map.specs.laws.MarkLaws.{MarksDiffer};
ghost use Rattle.pli_map.specs.laws.ScalarLaws.{PartsAreFound, PartsAreDetermined, FoundIsPlaced, ScalarsLieWithin};
ghost use Rattle.pli_map.specs.laws.ScalarLaws.{PartsOfParts, FilledPartsTakeBytes};
ghost use Rattle.pli_map.specs.examples.StoredExamples.{StoredNumbers, StoredStrings, StoredLocators};
ghost use Rattle.pli_map.specs.laws.StoredLaws.{StoredBytesFill, StoredIsLoaded, BytesAreOfOneValue};
ghost use Rattle.pli_map.specs.laws.SubscriptLaws.{OffsetsAreSums, SubscriptsWithinLead};
ghost use Rattle.pli_map.specs.laws.ValueLaws.{FirstValuesAreHeld};

/// A law: two different members or elements of one whole have no byte in common, nor have parts of them.
#[tactic(auto, using(crate::proofs::PlaceLaws::do_not_meet))]
pub fn parts_do_not_meet()
    ensures { PartsDoNotMeet }
{}

/// A law: a part lies within the whole.
#[tactic(auto, using(crate::proofs::PlaceLaws::lie_within))]
pub fn parts_lie_within()
    ensures { PartsLieWithin }
{}

/// A law: where the whole stands aligned, each part does.
#[tactic(auto, using(crate::proofs::PlaceLaws::stand_aligned))]
pub fn parts_stand_aligned()
    ensures { PartsStandAligned }
{}

/// A law: an alignment is 1, 2, 4 or 8.
#[tactic(auto, using(crate::proofs::PlaceLaws::four_alignments))]
pub fn four_alignments()
    ensures { FourAlignments }
{}

/// A law: AREA(n) is AREA(n rounded up to a multiple of 8).
#[tactic(auto, using(crate::proofs::PlaceLaws::areas_are_rounded))]
pub fn areas_are_rounded()
    ensures { AreasAreRounded }
{}

/// A law: an array has an element exactly at subscripts within its bounds.
#[tactic(auto, using(crate::proofs::PlaceLaws::elements_are_within_bounds))]
pub fn elements_are_within_bounds()
    ensures { ElementsAreWithinBounds }
{}

/// A law: the elements of an array stand in row-major order.
#[tactic(auto, using(crate::proofs::PlaceLaws::elements_are_in_order, crate::proofs::Places::index_below))]
pub fn elements_are_in_row_major_order()
    ensures order { ElementsAreInRowMajorOrder }
    ensures count { ElementsAreCounted }
{}

/// A law: the test for equality holds exactly of equal descriptions.
#[tactic(auto, using(crate::specs::laws::SameLaws::same_decides))]
pub fn same_is_equal()
    ensures { SameIsEqual }
{}

/// A law: no two descriptions that are marked have one mark.
#[tactic(auto, using(crate::proofs::MarkLemmas::same_from_mark))]
pub fn marks_differ()
    ensures { MarksDiffer }
{}

/// A law: which scalars a part has is determined by where it stands and by its description, and only parts are found.
#[tactic(auto, using(crate::proofs::ScalarLawsHold::parts_are_found, crate::proofs::ScalarLawsHold::parts_are_determined, crate::proofs::ScalarLawsHold::found_is_placed))]
pub fn parts_have_their_scalars()
    ensures found { PartsAreFound }
    ensures determined { PartsAreDetermined }
    ensures only { FoundIsPlaced }
{}

/// A law: the scalars and the bytes of a part are of the whole.
pub fn scalars_lie_within()
    ensures { ScalarsLieWithin }
{}

/// A law: a part of a part is a part of the whole, at the sum of both distances.
pub fn parts_of_parts()
    ensures { PartsOfParts }
{}

/// A law: where no length, size and number of elements is 0 each part takes bytes, and one without areas has a scalar.
pub fn filled_parts_take_bytes()
    ensures { FilledPartsTakeBytes }
{}

/// A law: a part stands after the first element by what its subscripts, of all levels in turn, pass.
#[tactic(auto, using(crate::proofs::SubscriptLawsHold::offsets_are_sums, crate::proofs::SubscriptLawsHold::subscripts_within_lead))]
pub fn offsets_are_sums()
    ensures sums { OffsetsAreSums }
    ensures lead { SubscriptsWithinLead }
{}

/// A law: the bytes of a value are as many as its description takes, and hold that value and no other.
#[tactic(auto, using(crate::proofs::StoredLawsHold::stored_bytes_fill, crate::proofs::StoredLawsHold::stored_is_loaded, crate::proofs::StoredLawsHold::bytes_are_of_one_value))]
pub fn stored_is_loaded()
    ensures fill { StoredBytesFill }
    ensures loaded { StoredIsLoaded }
    ensures one { BytesAreOfOneValue }
{}

/// A law: each scalar of each description begins with a value that it may hold.
#[tactic(auto, using(crate::proofs::FirstHeld::first_values_are_held))]
pub fn first_values_are_held()
    ensures { FirstValuesAreHeld }
{}

/// Worked examples of sizes, alignments and places, of scalars, of subscripts, of stored values and of types of
/// parameters.
pub fn worked_examples()
    ensures scalars { ScalarSizes }
    ensures members { MixedMembers }
    ensures wide_members { WideMembers }
    ensures elements { RowMajorOrder }
    ensures strides { StridesAreAligned }
    ensures no_elements { NoElements }
    ensures counted_scalars { CountedScalars }
    ensures found_scalars { FoundScalars }
    ensures named_subscripts { NamedSubscripts }
    ensures stored_numbers { StoredNumbers }
    ensures stored_strings { StoredStrings }
    ensures stored_locators { StoredLocators }
    ensures strings_agree { StringsAgree }
    ensures arrays_agree { ArraysAgree }
    ensures elements_are_open { ElementsAreOpen }
    ensures dimensions_are_known { DimensionsAreKnown }
{}
