//! Want of memory.

use std::alloc::{AllocError, AllocFailed};

/// An out-of-memory error (want of memory): no memory was there for what a call had to keep. Each
/// call says what it leaves. It is made in this module alone, of what an allocator answered or a
/// library told: no other file names the types of `std` that it is made of.
#[derive(Clone, Copy, Debug, PartialEq, Eq)]
pub struct OutOfMemory(AllocError);

impl OutOfMemory {
    /// That of a library whose error tells want of memory, and doesn't hand on what its allocator
    /// answered, as those of `clap` and `toml`. It is only for such an error.
    pub fn told_by_library() -> OutOfMemory {
        OutOfMemory(AllocError)
    }
}

impl From<AllocError> for OutOfMemory {
    fn from(error: AllocError) -> OutOfMemory {
        OutOfMemory(error)
    }
}

impl<T: Drop> From<AllocFailed<T>> for OutOfMemory {
    fn from(error: AllocFailed<T>) -> OutOfMemory {
        OutOfMemory(AllocError::from(error))
    }
}
