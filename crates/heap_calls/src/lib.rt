// The entries of the Nucleus that allocate and collect, over the parts of a machine that they touch.
//
// `collect_at_call` and `allocate_at_call` list the roots of a call, and collect or allocate with them. What they find is
// `CallFinds`, and what they come to is `CollectionTold` and `AllocationTold` (in specs/): what the typed machine replies, with the
// memory standing for its state.
#![tactic(auto)]

mod entries;

pub use entries::{allocate_at_call, collect_at_call};
