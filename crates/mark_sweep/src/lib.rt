// Collection of the heap's unreachable blocks, by marking and sweeping, without taking memory.
//
// `collect` frees each used block that a finite list of words (`Roots`) does not reach through
// reference fields and elements, joins free neighbours and rebuilds the index of free blocks. Which blocks are
// reached stands in `specs/Reached.antt`, what an object's words mean in `specs/Objects.antt`. Marked blocks whose
// objects are still to be scanned wait in a list through their own links. `laws` says that an object's references lie
// within its block, what addresses and shape words tell, and that after a collection the gaps between the blocks
// that it keeps are the free blocks.
#![tactic(auto)]

mod collecting;
pub mod laws;
mod marking;
mod objects;
mod passes;
mod roots;

pub use collecting::collect;
pub use objects::{object_address, shape_named};
pub use passes::Collected;
pub use roots::Roots;
