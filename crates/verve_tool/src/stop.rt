// What stops a command, with what is told of it.
ghost use Rattle.std.specs.Prelude.{◌≡◌};
ghost use Rattle.verve_tool.specs.Stops.{status_of};

use crate::status::Status;
use device_model::EventFault;
use no_memory::NoMemory;
use tal_checker::CheckAnswer;
use tal_image::ImageFault;
use tal_syntax::TextFault;

// Why a command stopped short of its work, with what its line on the error stream tells.
#[derive(Clone, Copy)]
pub(crate) enum Stop<'a> {
    // The words are no command.
    Usage,
    // The file of this name was not read.
    Read(&'a str),
    // The text was not written.
    Write,
    // The file of this name is too long.
    Long(&'a str),
    // No image stands for the file of this name, or memory was wanting for it.
    Image(&'a str, ImageFault),
    // An image is not accepted, or memory was wanting for its check.
    NotAccepted(CheckAnswer),
    // No list of events stands for the event file, or memory was wanting for it.
    Events(EventFault),
    // A text has no unit.
    Text(TextFault),
    // Memory was wanting.
    NoMemory,
}

impl Stop<'_> {
    pub(crate) fn status(&self) -> Status
        ensures { result ≡ status_of self.now }
    {
        match self {
            Stop::Usage => Status::Usage,
            Stop::Read(_) => Status::ReadFault,
            Stop::Write => Status::WriteFault,
            Stop::Long(_) => Status::TooLong,
            Stop::Image(_, ImageFault::NoMemory)
            | Stop::NotAccepted(CheckAnswer::NoMemory)
            | Stop::Events(EventFault::NoMemory)
            | Stop::NoMemory => Status::NoMemory,
            Stop::Image(..) => Status::Malformed,
            Stop::NotAccepted(_) => Status::Refused,
            Stop::Events(_) => Status::Events,
            Stop::Text(_) => Status::Text,
        }
    }
}

impl From<NoMemory> for Stop<'_> {
    ghost use Rattle.std.specs.Prelude.{◌≡◌};
    ghost use Rattle.verve_tool.specs.declared.stop.Stop.TheVariants.{NoMemory as no_memory};

    ghost from_gives = { λ _ stop. stop ≡ no_memory };

    fn from(_want: NoMemory) -> Self {
        Stop::NoMemory
    }
}

impl From<EventFault> for Stop<'_> {
    ghost use Rattle.std.specs.Prelude.{◌≡◌};
    ghost use Rattle.verve_tool.specs.declared.stop.Stop.TheVariants.{Events as events};

    ghost from_gives = { λ fault stop. stop ≡ events fault };

    fn from(fault: EventFault) -> Self {
        Stop::Events(fault)
    }
}

impl From<CheckAnswer> for Stop<'_> {
    ghost use Rattle.std.specs.Prelude.{◌≡◌};
    ghost use Rattle.verve_tool.specs.declared.stop.Stop.TheVariants.{NotAccepted as not_accepted};

    ghost from_gives = { λ answer stop. stop ≡ not_accepted answer };

    fn from(answer: CheckAnswer) -> Self {
        Stop::NotAccepted(answer)
    }
}
