//! The entries of a run's ledger, as the tests name them.

use link_model::{Cause, Notes, Record};

/// The frame and the cause of the entry at this index; none where another record stands there, or no
/// one.
fn entry(notes: &Notes, place: usize) -> Option<(u64, Cause)> {
    match notes.at(place) {
        Some(Record::Loss { mark, cause }) => Some((mark.frame, *cause)),
        _ => None,
    }
}

/// Whether the records are entries of these frames with these causes.
pub(crate) fn are_entries(notes: &Notes, want: &[(u64, Cause)]) -> bool {
    for (place, wanted) in want.iter().enumerate() {
        if entry(notes, place) != Some(*wanted) {
            return false;
        }
    }
    notes.len() == want.len()
}
