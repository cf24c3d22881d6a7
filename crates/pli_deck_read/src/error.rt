//! Why nothing was read from bytes.

use pli_base::Failure;
use pli_code::DeckFault;

/// Why nothing was read.
pub type ReadError = Failure<DeckFault>;
