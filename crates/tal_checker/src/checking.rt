// Which images are accepted.
ghost use Rattle.std.specs.Prelude.{◌≡◌, ◌⊎◌, ℕ, IfOk, IfErr, OnOk, Err};
ghost use Rattle.tal_checker.specs.declared.answer.CheckAnswer.TheVariants.{Refused, NoMemory};
ghost use Rattle.tal_checker.specs.Frames.{frames_of};
ghost use Rattle.tal_checker.specs.WellTyped.{WellTyped, FirstRefusal};

use crate::answer::CheckAnswer;
use crate::code::check_code;
use crate::laws::{one_refusal, strongest_decides};
use frame_tables::FrameTable;
use std::alloc::Global;
use std::marker::Model;
use tal_image::Image;

/// An image that is accepted: it is well typed. With it stand the rows of its frames, one for each instruction.
#[derive(Drop)]
pub struct Checked {
    image: Image,
    frames: FrameTable,
}

impl Model for Checked {
    ghost use Rattle.std.specs.Prelude.{◌≡◌};
    ghost use Rattle.tal_checker.specs.Accepted.{CheckedParts};
    ghost use Rattle.tal_checker.specs.Frames.{frames_of};
    ghost use Rattle.tal_checker.specs.WellTyped.{WellTyped};

    ghost Value = { CheckedParts };

    ghost view = { λ c. record { image = c.image; frames = c.frames } };

    ghost invariant = { λ c. WellTyped c.image × (c.frames ≡ frames_of c.image) };
}

impl Checked {
    /// The image.
    pub fn image(&self) -> &Image
        ensures value { result.now ≡ self.now.image }
        ensures typed { WellTyped self.now.image }
    {
        &self.image
    }

    /// The rows of its frames: at each instruction the number of slots of the frame, and which registers and slots may hold
    /// references there.
    pub fn frames(&self) -> &FrameTable
        ensures value { result.now ≡ self.now.frames }
        ensures rows { self.now.frames ≡ frames_of self.now.image }
    {
        &self.frames
    }
}

/// Accepts the image where it is well typed, else answers the least address where a rule of typing fails and the least rule
/// that fails there. The image is given up on a refusal, and for want of memory.
///
/// The code is gone over once, with one context.
pub fn check(alloc: Global, image: Image) -> Result<Checked, CheckAnswer>
    ensures ok { IfOk result (λ c. c.image ≡ image) }
    ensures frames { IfOk result (λ c. c.frames ≡ frames_of image) }
    ensures accepted { OnOk result (WellTyped image) }
    ensures typed { WellTyped image → IfErr result (λ e. e ≡ NoMemory) }
    ensures refused { (address rule : ℕ) → result ≡ Err (Refused address rule) → FirstRefusal image address rule }
    ensures first { (address rule : ℕ) → FirstRefusal image address rule → (result ≡ Err (Refused address rule)) ⊎ (result ≡ Err NoMemory) }
{
    // The laws by which the answer is the only one: they do nothing when they run.
    strongest_decides();
    one_refusal();
    image.formed();
    match check_code(alloc, &image, image.code()) {
        Ok(frames) => Ok(Checked { image, frames }),
        Err(answer) => Err(answer),
    }
}
