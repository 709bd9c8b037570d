// A mistake in a drawing as the reader meets it, before it is put into words.
use crate::errors::{Expected, Place};
use std::alloc::{AllocError, AllocFailed};

#[derive(Clone, Copy, Debug, PartialEq, Eq)]
pub enum Mistake {
    Memory,
    // The word at the place, or the end of its line where there is none.
    Word(Place, Expected),
    // The part at the place, with which the row has too many numbers.
    Row(Place),
}

// By hand, this one and the next: thiserror wants a message of each variant, and a mistake has none before `explain` puts it into words.
impl From<AllocError> for Mistake {
    fn from(_e: AllocError) -> Mistake {
        Mistake::Memory
    }
}

impl<T: Drop> From<AllocFailed<T>> for Mistake {
    fn from(_e: AllocFailed<T>) -> Mistake {
        Mistake::Memory
    }
}
