//! Laws of the bytes of decks.
ghost use Rattle.pli_code.specs.Fields.{BothWays};
ghost use Rattle.pli_code.specs.declared.version.Version.{Version};
ghost use Rattle.pli_deck_write.specs.Descriptions.{description};
ghost use Rattle.pli_deck_write.specs.Spelling.{ReadIsSpelled, SpelledIsRead, OneSpelling, OneDeck};
ghost use Rattle.pli_deck_write.specs.ModuleSpelling.{ReadModuleIsSpelled, SpelledModuleIsRead, OneModule};
ghost use Rattle.pli_deck_write.specs.examples.DeckExamples.{WrittenSo, ReadSo};
ghost use Rattle.pli_deck_write.specs.examples.FaultExamples.{DeckFaultsAre, StarFaultsAre};
ghost use Rattle.pli_deck_write.specs.examples.ModuleExamples.{ModulesWrittenSo, ModulesReadSo, ModuleFaultsAre};
ghost use Rattle.pli_deck_write.specs.examples.TypeExamples.{TypesWrittenSo, TypesReadSo};

/// A law: in each version, a description or a type that is read is spelled by the bytes that were there, and one that
/// is spelled is read again, whatever stands after it.
pub fn descriptions_both_ways()
    ensures { (v : Version) → BothWays (description v) }
{}

/// Laws: what is read is spelled so, what is spelled so is read, a deck has one spelling, and bytes spell one deck at
/// most.
#[tactic(auto, using(crate::proofs::SpellingLaws::spelled_is_read, crate::proofs::SpellingLaws::one_spelling, crate::proofs::SpellingLaws::one_deck))]
pub fn decks_both_ways()
    ensures read { ReadIsSpelled }
    ensures spelled { SpelledIsRead }
    ensures one_spelling { OneSpelling }
    ensures one_deck { OneDeck }
{}

/// The same laws of modules; two modules have not one spelling.
#[tactic(auto, using(crate::proofs::ModuleLaws::spelled_module_is_read, crate::proofs::ModuleLaws::one_module))]
pub fn modules_both_ways()
    ensures read { ReadModuleIsSpelled }
    ensures spelled { SpelledModuleIsRead }
    ensures one_module { OneModule }
{}

/// Worked examples: decks with their bytes, and bytes that are none.
#[tactic(auto, using(crate::proofs::Worked::written_so, crate::proofs::Worked::read_so))]
pub fn worked_decks()
    ensures written { WrittenSo }
    ensures read { ReadSo }
    ensures faults { DeckFaultsAre }
{}

/// Worked examples: types with a `*`, with their bytes, and which faults a deck has that names them.
#[tactic(auto, using(crate::proofs::Worked::types_written_so, crate::proofs::Worked::types_read_so))]
pub fn worked_types()
    ensures written { TypesWrittenSo }
    ensures read { TypesReadSo }
    ensures faults { StarFaultsAre }
{}

/// Worked examples: modules with their bytes, and bytes that are none.
#[tactic(auto, using(crate::proofs::Worked::modules_written_so, crate::proofs::Worked::modules_read_so, crate::proofs::Worked::module_faults_are))]
pub fn worked_modules()
    ensures written { ModulesWrittenSo }
    ensures read { ModulesReadSo }
    ensures faults { ModuleFaultsAre }
{}
