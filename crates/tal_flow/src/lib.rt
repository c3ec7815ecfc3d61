// What each instruction of typed assembly asks of what is known before it, and what it leaves.
//
// `place_of` says what a memory operand means, and `pass` tries the rules of typing at an instruction: it
// answers the least rule that fails, or turns the context into what is known where the instruction falls
// through. `flow` does the same and says where runs go from there (`Edges`); where a rule fails it leaves
// the context as it was. None of them allocates. The definitions stand in
// `specs/`: `Forms` (instructions by what typing says of them), `Places` (operands and how they resolve),
// `Rows` (CMP and TEST), `Calls`, `Functions`, `Seen` (forms with their operands resolved), `Trials` (the
// rules by their names), `Rules`, `Afterwards`, `Edges` and `Strongest` (the context at each instruction,
// `At`); what holds of them in the module `laws`.
#![tactic(auto)]

mod afterwards;
mod calls;
mod edges;
mod flowing;
mod forms;
mod functions;
mod known;
pub mod laws;
mod operands;
mod places;
mod rows;
mod rules;
mod seen;
mod trials;

pub use calls::{entry_number, is_entry};
pub use edges::{Edges, Rule};
pub use flowing::{flow, pass};
pub use places::{Place, place_of};
