/// What happened to a stack in a turn.
#[derive(Clone, Copy, Debug, PartialEq, Eq)]
pub enum EntryKind {
    /// It called the Nucleus entry of this number, which answered.
    Call(u8),
    /// It yielded.
    Yield,
    /// It was interrupted.
    Interrupt,
    /// It faulted.
    Fault,
    /// It ended.
    Ended,
}

/// A row of the journal: what happened, in which turn, to which stack.
#[derive(Clone, Copy, Debug, PartialEq, Eq)]
pub struct Entry {
    /// The turn, counted from 1.
    pub turn: u32,
    /// The stack that ran.
    pub stack: u16,
    /// What happened to it.
    pub kind: EntryKind,
    /// The reply of a call, the stack that was yielded to, the line, the vector, or 0 for an end.
    pub value: u32,
}
