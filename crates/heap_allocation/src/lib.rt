// Allocation in the heap, over its words alone.
//
// `allocate` takes a free block that has the need of an object, or collects and takes one then, and lays the fresh
// object out in it. It is refused exactly where no gap between the blocks that the listed words reach has the need
// (`specs/Allocations.antt`: `NoGap`, `Allocated`). `collect_and_count` collects and answers how many words lie
// outside the reached blocks (`specs/Counts.antt`). Neither takes memory. `laws` ties clear words to the gaps of a
// heap, and says that all stays good where the fresh object is listed too.
#![tactic(auto)]

mod allocating;
mod counting;
pub mod laws;
mod laying;

pub use allocating::allocate;
pub use counting::collect_and_count;
