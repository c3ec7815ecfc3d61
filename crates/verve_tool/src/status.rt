// How a command ended, and the number by which the program tells it.
ghost use Rattle.std.specs.Prelude.{◌≡◌};
ghost use Rattle.verve_tool.specs.Outcome.{exit_number};

/// How a command ended. Of several causes the first in the command's list is told: the image file is read before the event
/// file, both before what they hold is looked at, and the image is judged before the events.
#[derive(Clone, Copy, Debug, PartialEq, Eq)]
pub enum Status {
    /// The command did its work: the image is accepted, or the run was made and its report written, or the unit was written.
    Done,
    /// The words are no command.
    Usage,
    /// A file was not read: it is missing, or a read failed.
    ReadFault,
    /// The work was done, and its text was not written whole.
    WriteFault,
    /// No list of events stands for the event file.
    Events,
    /// No image stands for the image file.
    Malformed,
    /// The image is not well typed.
    Refused,
    /// A text has no unit.
    Text,
    /// A file is longer than its limit: 4 MiB for an image or a text, 32 MiB for events.
    TooLong,
    /// The run ended by a fault in the kernel, and the text was written.
    KernelFault,
    /// Memory was wanting; nothing was written.
    NoMemory,
}

impl Status {
    /// The exit status of the program.
    pub fn number(self) -> u8
        ensures { result ≡ exit_number self }
    {
        match self {
            Status::Done => 0,
            Status::Usage => 1,
            Status::ReadFault => 2,
            Status::WriteFault => 3,
            Status::Events => 4,
            Status::Malformed => 5,
            Status::Refused => 6,
            Status::Text => 7,
            Status::TooLong => 9,
            Status::KernelFault => 10,
            Status::NoMemory => 11,
        }
    }
}
