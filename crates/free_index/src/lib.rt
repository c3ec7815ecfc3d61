// Finding free blocks. The free blocks of each of 32 size classes stand in a doubly linked list through their
// own second and third words; `FreeIndex` keeps the 32 heads, and takes no memory of its own.
//
// Contracts see the heads beside the heap's words: `specs/Lists.antt` says when heads stand for a heap's free
// blocks (`FreeLists`), and every call asks for that and keeps it. `take` answers None exactly where no free
// block has the need. `laws` has the classes by their rule, and that writes of object words keep the lists.
#![tactic(auto)]

mod index;
pub mod laws;
mod links;
mod size_class;

pub use index::FreeIndex;
