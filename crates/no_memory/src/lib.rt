// Want of memory, as one type: the answer that every call which allocates has beside its own.
#![tactic(auto)]

use std::alloc::{AllocError, AllocFailed};

/// There was no memory for what was asked. What stands afterwards is said by the call that answers it.
#[derive(Clone, Copy, Debug, PartialEq, Eq)]
pub struct NoMemory;

impl From<AllocError> for NoMemory {
    fn from(_failure: AllocError) -> NoMemory {
        NoMemory
    }
}

impl<T: Drop> From<AllocFailed<T>> for NoMemory {
    fn from(_failure: AllocFailed<T>) -> NoMemory {
        NoMemory
    }
}
