// The memory of a typed state after its heap changed.
//
// An allocation and a collection replace the words of the heap, and the store may have an object more. `laws` says that the
// memory stands for the state then: all other words stay, and each value that was there keeps its word.
#![tactic(auto)]

pub mod laws;
