/// What a call of the Nucleus came to.
#[derive(Clone, Copy, Debug, PartialEq, Eq, Drop)]
pub enum Done {
    /// The caller goes on after its call.
    Back,
    /// The caller has yielded, and another stack runs.
    Switched,
}

/// Why an application runs no more.
#[derive(Clone, Copy, Debug, PartialEq, Eq, Drop)]
pub enum Leaving {
    /// A fault of this vector.
    Fault(u8),
    /// It returned to its end word.
    Ended,
}
