// Who runs: the states of the stacks, and the words that the layers above share for them.
//
// `Stacks` is a table of states with exactly one `Running`. Each call changes the two stacks that it names and no
// other; what stays and what the table is afterwards stands in `specs/StackTable`. `FlagBits` are the processor's four
// flags, and `Entry` is a row of the journal of what happened to the stacks.
#![tactic(auto)]

mod flag_bits;
mod journal_entry;
mod stack_state;
mod table;

pub use flag_bits::FlagBits;
pub use journal_entry::{Entry, EntryKind};
pub use stack_state::StackState;
pub use table::{MOST_STACKS, Stacks};
