// The command `list`: the listing of the image of a file.
ghost use Rattle.std.specs.Prelude.{[], None};
ghost use Rattle.verve_tool.specs.Commands.{Listing};
ghost use Rattle.verve_tool.specs.Seen.{call_of};
ghost use Rattle.verve_tool.specs.Stops.{Acted};

use crate::load::hold_image;
use crate::putting::put_text;
use crate::status::Status;
use crate::stop::Stop;
use outside::{Files, Sink};
use std::alloc::Global;
use tal_listing::listing;

// Reads an image, and puts its listing in one piece. The image may be ill typed, and nothing is run.
pub(crate) fn act_list<'a, F: Files, K: Sink>(
    alloc: Global,
    name: &'a str,
    files: &mut F,
    out: &mut K,
) -> Result<Status, Stop<'a>>
    ensures { Acted (Listing name.now) (call_of F.told F.steady F.read_faults F.write_faults K.told K.faults
        files.old files.new out.old out.new [] None) result }
{
    let image = hold_image(alloc, files, name)?;
    let text = listing(alloc, &image)?;
    put_text(out, text.as_bytes(), Status::Done)
}
