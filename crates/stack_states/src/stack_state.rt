use crate::FlagBits;

/// What a stack does. `pc` is the address of its next instruction.
#[derive(Clone, Copy, Debug, PartialEq, Eq)]
pub enum StackState {
    /// It has not started, or has ended.
    Empty,
    /// The processor's registers, flags and place are its own.
    Running,
    /// It waits after its call. `sp` is its ESP.
    Yielded {
        sp: u32,
        pc: u32,
    },
    /// It was interrupted before the instruction at `pc`, with these registers, by their numbers, and flags.
    Interrupted {
        regs: [u32; 8],
        flags: FlagBits,
        pc: u32,
    },
}
