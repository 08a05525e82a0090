//! Why a document isn't read.

ghost use Rattle.std.specs.Prelude.{◌≡◌};
ghost use Rattle.document_text.specs.declared.fault.DocumentFault.TheVariants.{OutOfMemory as NoMemory};

use net_types::OutOfMemory;
use script_model::DocumentRefusal;

/// A parse error of a TOML document: why it isn't read.
#[derive(Clone, Copy, Debug, PartialEq, Eq)]
pub enum DocumentFault {
    /// The document is refused as a whole.
    Refused(DocumentRefusal),
    /// No memory was left for what it holds.
    OutOfMemory(OutOfMemory),
}

impl From<OutOfMemory> for DocumentFault {
    ghost from_gives = { λ error fault. fault ≡ NoMemory error };

    fn from(error: OutOfMemory) -> DocumentFault {
        DocumentFault::OutOfMemory(error)
    }
}
