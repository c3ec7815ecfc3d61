// Going over code: one context, which each instruction turns into what falls to the next.
ghost use Rattle.std.specs.Prelude.{◌≡◌, ◌≤◌, length, IfOk, IfErr};
ghost use Rattle.std.specs.Option.{option_map, option_and_then};
ghost use Rattle.tal_types.specs.Kept.{context_of};
ghost use Rattle.tal_flow.specs.Strongest.{start};
ghost use Rattle.tal_checker.specs.Passing.{Passed, RefusesCode};

use crate::answer::CheckAnswer;
use crate::frames::frame_row;
use frame_tables::FrameTable;
use ia32_code::{Decoded, decode};
use object_layout::areas::CODE_START;
use std::alloc::Global;
use tal_flow::pass;
use tal_types::{Context, ImageView, Sig};

/// The signature of the function that begins at an address.
fn signature_from<V: ImageView>(image: &V, pc: u32) -> Option<Sig>
    ensures { result ≡ option_and_then (V.shown image.now).sig ((V.shown image.now).function_at pc) }
{
    match image.function_at(pc) {
        Some(g) => image.sig(g),
        None => None,
    }
}

/// Turns what falls to an address into what is known there: at a function's first instruction what its signature says, at a
/// block the annotation.
#[tactic(auto, unfolding(tal_flow::specs::Strongest::start, tal_flow::specs::Strongest::known_at, tal_types::specs::Contexts::entry))]
fn start_at<V: ImageView>(image: &V, context: &mut Context, pc: u32)
    ensures { context_of context.new ≡ start (V.shown image.now) pc (context_of context.old) }
{
    if let Some(sig) = signature_from(image, pc) {
        context.set_plain(&sig.params, &[]);
    } else if let Some(block) = image.annotation_at(pc) {
        context.set_plain(block.types, block.slots);
    }
}

/// Goes over the code of an image once, and tries the rules at each instruction: the rows of its frames where none fails,
/// else the first refusal.
pub(crate) fn check_code<V: ImageView>(
    alloc: Global,
    image: &V,
    code: &[u8],
) -> Result<FrameTable, CheckAnswer>
    requires { length code.now ≤ 1048576 }
    ensures ok { IfOk result (λ frames. Passed (V.shown image.now) code.now frames) }
    ensures err { IfErr result (λ answer. RefusesCode (V.shown image.now) code.now answer) }
{
    let mut frames = FrameTable::new(alloc);
    let mut context = Context::dead();
    let mut pc = CODE_START;
    let mut rest = code;
    while let Decoded::One { inst, len } = decode(rest) {
        start_at(image, &mut context, pc);
        frames.push(pc, frame_row(&context))?;
        if let Some(rule) = pass(image, &mut context, pc, &inst, len) {
            return Err(CheckAnswer::Refused {
                address: pc,
                rule: rule.0,
            });
        }
        pc += u32::from(len);
        let (_, after) = rest.split_at(len as usize);
        rest = after;
    }
    Ok(frames)
}
