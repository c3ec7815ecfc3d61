// The files of a command: read whole, each once, and then accepted or not.
ghost use Rattle.std.specs.Prelude.{◌≡◌, ◌≤◌, ℕ, List, length, ◌∷◌, [], Option, IfOk, IfErr, OnOk, IsErrAnd};
ghost use Rattle.outside.specs.FileMaps.{FileMap};
ghost use Rattle.device_model.specs.EventFile.{InOrder};
ghost use Rattle.tal_image.specs.Formed.{ImageOf};
ghost use Rattle.tal_checker.specs.WellTyped.{WellTyped};
ghost use Rattle.verve_tool.specs.Checks.{a_check};
ghost use Rattle.verve_tool.specs.Listings.{a_listing};
ghost use Rattle.verve_tool.specs.Runs.{run_causes, Loaded};
ghost use Rattle.verve_tool.specs.Causes.{Missing, Long, Malformed, IllTyped, FileRead, HoldsImage, TypedImage};
ghost use Rattle.verve_tool.specs.Seen.{files_seen, OnlyReads};
ghost use Rattle.verve_tool.specs.Stops.{StopsBy, StopsAt, IsUnread, run_of};

use crate::stop::Stop;
use crate::words::RunCommand;
use device_model::{Event, read_events};
use outside::{Files, ReadAnswer};
use std::alloc::Global;
use tal_checker::laws::one_refusal;
use tal_checker::{Checked, check};
use tal_image::Image;
use tal_image::laws::one_meaning;

// 4 MiB.
pub(crate) const IMAGE_MOST: usize = 4194304;

// 32 MiB.
const EVENTS_MOST: usize = 33554432;

// 4 MiB.
pub(crate) const TEXT_MOST: usize = 4194304;

// The bytes of a file that has at most so many.
pub(crate) fn read_file<'a, F: Files>(
    alloc: Global,
    files: &mut F,
    name: &'a str,
    most: usize,
) -> Result<Vec<u8>, Stop<'a>>
    ensures read { IfOk result (λ v. FileRead (F.told files.old) name.now most v.items) }
    ensures stopped { let seen = files_seen F.told F.steady F.read_faults F.write_faults in
        IfErr result (λ s. StopsAt (seen files.old) (seen files.new) (Missing name.now ∷ Long name.now most ∷ []) s) }
    ensures reads { let seen = files_seen F.told F.steady F.read_faults F.write_faults in
        OnlyReads (seen files.old) (seen files.new) (IsErrAnd result IsUnread) }
{
    match files.read(alloc, name, most) {
        Ok(bytes) => {
            if bytes.len() > most {
                Err(Stop::Long(name))
            } else {
                Ok(bytes)
            }
        }
        Err(ReadAnswer::Failed) => Err(Stop::Read(name)),
        Err(ReadAnswer::NoMemory) => Err(Stop::NoMemory),
    }
}

// The image that these bytes stand for, which are those of the file of this name.
fn read_image<'a>(alloc: Global, name: &'a str, bytes: &[u8]) -> Result<Image, Stop<'a>>
    ensures stands { IfOk result (λ i. ImageOf bytes.now i) }
    ensures stopped { (told : Option FileMap) → FileRead told name.now IMAGE_MOST bytes.now
        → IfErr result (λ s. StopsBy told (Malformed name.now ∷ []) s) }
{
    match Image::read(alloc, bytes) {
        Ok(image) => Ok(image),
        Err(fault) => Err(Stop::Image(name, fault)),
    }
}

// The image, accepted.
fn accept<'a>(alloc: Global, image: Image) -> Result<Checked, Stop<'a>>
    ensures same { IfOk result (λ c. c.image ≡ image) }
    ensures well_typed { OnOk result (WellTyped image) }
    ensures stopped { (told : Option FileMap) (name : List ℕ) → HoldsImage told name image
        → IfErr result (λ s. StopsBy told (IllTyped name ∷ []) s) }
{
    Ok(check(alloc, image)?)
}

// Reads the image's file, and the image that its bytes stand for.
pub(crate) fn hold_image<'a, F: Files>(
    alloc: Global,
    files: &mut F,
    name: &'a str,
) -> Result<Image, Stop<'a>>
    ensures held { IfOk result (λ i. HoldsImage (F.told files.old) name.now i) }
    ensures stopped { let seen = files_seen F.told F.steady F.read_faults F.write_faults in
        IfErr result (λ s. StopsAt (seen files.old) (seen files.new) (a_listing name.now).causes s) }
    ensures reads { let seen = files_seen F.told F.steady F.read_faults F.write_faults in
        OnlyReads (seen files.old) (seen files.new) (IsErrAnd result IsUnread) }
{
    let bytes = read_file(alloc, files, name, IMAGE_MOST)?;
    read_image(alloc, name, &bytes)
}

// Reads the image's file, and accepts what it holds.
pub(crate) fn load_image<'a, F: Files>(
    alloc: Global,
    files: &mut F,
    name: &'a str,
) -> Result<Checked, Stop<'a>>
    ensures typed { IfOk result (λ c. TypedImage (F.told files.old) name.now c.image) }
    ensures stopped { let seen = files_seen F.told F.steady F.read_faults F.write_faults in
        IfErr result (λ s. StopsAt (seen files.old) (seen files.new) (a_check name.now).causes s) }
    ensures reads { let seen = files_seen F.told F.steady F.read_faults F.write_faults in
        OnlyReads (seen files.old) (seen files.new) (IsErrAnd result IsUnread) }
{
    one_meaning();
    let image = hold_image(alloc, files, name)?;
    accept(alloc, image)
}

// Reads the image's file and then the events', and accepts what they hold.
pub(crate) fn load_run<'a, F: Files>(
    alloc: Global,
    files: &mut F,
    run: RunCommand<'a>,
) -> Result<(Checked, Vec<Event>), Stop<'a>>
    ensures loaded { IfOk result (λ l. Loaded (F.told files.old) (run_of run.entry) l.0.image l.1.items) }
    ensures in_order { IfOk result (λ l. InOrder l.1.items) }
    ensures stopped { let seen = files_seen F.told F.steady F.read_faults F.write_faults in
        IfErr result (λ s. StopsAt (seen files.old) (seen files.new) (run_causes (run_of run.entry)) s) }
    ensures reads { let seen = files_seen F.told F.steady F.read_faults F.write_faults in
        OnlyReads (seen files.old) (seen files.new) (IsErrAnd result IsUnread) }
{
    one_meaning();
    one_refusal();
    let image_bytes = read_file(alloc, files, run.image, IMAGE_MOST)?;
    let event_bytes = read_file(alloc, files, run.events, EVENTS_MOST)?;
    let image = read_image(alloc, run.image, &image_bytes)?;
    let checked = accept(alloc, image)?;
    let events = read_events(alloc, &event_bytes)?;
    Ok((checked, events))
}
