// The command `check`: whether the image of a file is accepted.
ghost use Rattle.std.specs.Prelude.{[], None};
ghost use Rattle.verve_tool.specs.Commands.{Check};
ghost use Rattle.verve_tool.specs.Seen.{call_of};
ghost use Rattle.verve_tool.specs.Stops.{Acted};

use crate::load::load_image;
use crate::putting::put_text;
use crate::status::Status;
use crate::stop::Stop;
use outside::{Files, Sink};
use std::alloc::Global;

// Reads an image, and says that it is accepted where it is. Nothing is run.
pub(crate) fn act_check<'a, F: Files, K: Sink>(
    alloc: Global,
    image: &'a str,
    files: &mut F,
    out: &mut K,
) -> Result<Status, Stop<'a>>
    ensures { Acted (Check image.now) (call_of F.told F.steady F.read_faults F.write_faults K.told K.faults
        files.old files.new out.old out.new [] None) result }
{
    load_image(alloc, files, image)?;
    put_text(out, b"accepted\n", Status::Done)
}
