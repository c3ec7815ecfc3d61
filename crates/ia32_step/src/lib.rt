// The step of an instruction: what the processor does to registers, flags and words of memory.
//
// `exec` runs one instruction on a `Cpu` and a `Bus`, the memory. Calls, returns and the divide error are answered as
// an `Effect` and left to the caller.
//
// The arithmetic (in specs/: `Sums`, `Shifts`, `Products`) gives the result and the flags of each operation over whole
// numbers, as `Computed`. `Effects` has what an instruction does with them, by a table of instructions: `exec` meets it.
#![tactic(auto)]

mod bus;
mod computed;
mod conditions;
mod cpu;
mod effect;
mod operands;
mod products;
mod quotients;
mod shifts;
mod step;
mod sums;

pub use bus::Bus;
pub use cpu::Cpu;
pub use effect::Effect;
pub use step::exec;
