//! Storage, as the machine keeps it: the generations that live, each as its bytes, in which every scalar of its
//! description lies at its offset; one that is an area has blocks.
//!
//! `place` says where references lead, and `leading` finds it, `element_place` how a subscript leads to an element,
//! `part` which bytes of a generation stand there, `living` what lives at a position of a generation, `known` which
//! parts of a whole need no search, `elements` which of an array need no walk; `storage` reads, puts, copies and
//! makes, by `putting` and `copying`, which change bytes, and `ending` ends; `lone_numbers` looks up once a number
//! that is read and put more often, `number_dummies` makes dummy arguments of numbers, `texts` reads and puts
//! characters; `kind` is what is fixed for the generations of a description, of which one is made at once; `bits`
//! tells a lone bit from its byte, `numbers` a number and `pointers` a pointer from its bytes, and
//! `pointer_places` reads and puts pointers; `spare` keeps memory for generations to come, and `reserving` sees that
//! a list has room. `strings` makes dummy arguments as long as their strings, which have the descriptions of
//! `string_descriptions`. `blocks` changes the blocks of one generation, `places_in_blocks` reads, puts and copies
//! there, and `areas` allocates, frees, empties and assigns.
#![tactic(auto)]

mod areas;
mod bits;
mod blocks;
mod copying;
mod element_place;
mod elements;
mod ending;
mod fault;
mod generation;
mod kind;
mod known;
mod leading;
mod living;
mod lone_numbers;
mod number_dummies;
mod numbers;
mod part;
mod place;
mod places_in_blocks;
mod pointer_places;
mod pointers;
mod putting;
mod reserving;
mod spare;
mod storage;
mod string_descriptions;
mod strings;
mod texts;

pub use element_place::ElementPlace;
pub use elements::RowNumber;
pub use fault::StoreFault;
pub use generation::Made;
pub use kind::{Handle, Kind};
pub use known::KnownPart;
pub use living::Target;
pub use lone_numbers::LoneNumber;
pub use place::Place;
pub use pointer_places::NearPointer;
pub use reserving::reserve_one;
pub use storage::Storage;
pub use string_descriptions::StringDescriptions;
pub use strings::StringForms;
