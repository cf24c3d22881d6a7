//! Values of scalars in bytes: each scalar of a description lies at an offset of its bytes, and is read, put and laid
//! there.
#![tactic(auto)]

mod beginning;
mod laws;
mod laying;
mod putting;
mod reading;
mod scalar;
mod short;
mod stored;
mod values;

pub use beginning::lay_first;
pub use laws::{parts_are_their_bytes, scalars_are_places};
pub use laying::lay;
pub use putting::{append_at, put_known_number, put_number_at, put_text_at, put_value_at};
pub use reading::{known_number, number_at, text_at, value_at};
pub use scalar::put_on;
pub use short::{put_short_at, short_at, short_bits};
pub use stored::{load_value, store_value};
pub use values::{first_values, holds};
