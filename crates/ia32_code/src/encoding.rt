ghost use Rattle.std.specs.Prelude.{◌≡◌, ◌+◌, ◌<◌, ◌↔◌, None, length, IfSome, OnOk, OnErr, IsErrOf};
ghost use Rattle.ia32_code.specs.declared.encoding.CodeFault.{CodeFault};
ghost use Rattle.ia32_code.specs.Spells.{Spells};
ghost use Rattle.ia32_code.specs.Canonical.{Canonical, canonical_length, Appends};

use crate::canonical::canonical_row;
use crate::code_buf::CodeBuf;
use crate::instruction::Inst;
use crate::ranges::in_range;
use crate::spelling::length_of;
use crate::writing::push_spelling;

/// Why an instruction was not appended.
#[derive(Clone, Copy, Debug, PartialEq, Eq, Drop)]
pub enum CodeFault {
    /// The instruction has no spelling.
    NoSpelling,
    /// The room left is smaller than the spelling.
    Full,
}

/// Appends the canonical spelling. After a fault the buffer is as it was.
pub fn encode(inst: &Inst, room: &mut CodeBuf) -> Result<(), CodeFault>
    ensures ok { OnOk result (Appends inst.now room.old room.new) }
    ensures spelling { IfSome (Canonical inst.now) (λ text. Spells text inst.now) }
    ensures none { IsErrOf result CodeFault.NoSpelling ↔ (Canonical inst.now ≡ None) }
    ensures full { IsErrOf result CodeFault.Full ↔ (16 < length room.old + canonical_length inst.now) }
    ensures err { OnErr result (room.new ≡ room.old) }
{
    in_range(*inst);
    let left = room.room();
    let Some(spelling) = canonical_row(inst) else {
        return Err(CodeFault::NoSpelling);
    };
    if length_of(spelling) as usize > left {
        return Err(CodeFault::Full);
    }
    push_spelling(room, spelling);
    Ok(())
}

/// The length of the canonical spelling in bytes, 1 to 11, and 0 where there is none.
pub fn len_of(inst: &Inst) -> u8
    ensures length { result ≡ canonical_length inst.now }
    ensures spelling { IfSome (Canonical inst.now) (λ text. Spells text inst.now) }
    ensures none { (result ≡ 0) ↔ (Canonical inst.now ≡ None) }
{
    in_range(*inst);
    match canonical_row(inst) {
        Some(spelling) => length_of(spelling),
        None => 0,
    }
}
