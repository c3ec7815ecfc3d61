// A memory for instructions that touch no word of it, and which instructions these are.
ghost use Rattle.std.specs.Prelude.{◌≡◌, ◌==◌, ℕ, Bool, true, if◌then◌else◌};
ghost use Rattle.ia32_step.specs.Operands.{WordState};
ghost use Rattle.ia32_step.specs.Reaches.{Reaches, IsReached};

use ia32_code::{Inst, Operand};
use ia32_step::Bus;

/// The word at 0x300000, and no other.
#[derive(Drop)]
pub struct OneWord {
    pub word: u32,
}

impl Bus for OneWord {
    ghost is_mapped = { λ _ a. a == 3145728 };

    ghost word_at = { λ bus a. (if a == 3145728 then bus.word else 0) };

    fn mapped(&self, address: u32) -> bool {
        address == 0x30_0000
    }

    fn load(&self, _address: u32) -> u32 {
        self.word
    }

    fn store(&mut self, _address: u32, word: u32) {
        self.word = word;
    }
}

fn is_no_word(operand: &Operand) -> bool
    ensures { (m : WordState) (mapped : ℕ → Bool) → result ≡ true → IsReached operand.now m mapped }
{
    !matches!(operand, Operand::M(_))
}

/// Whether the instruction touches no word of memory.
pub fn needs_no_word(inst: &Inst) -> bool
    ensures { (m : WordState) (mapped : ℕ → Bool) → result ≡ true → Reaches inst.now m mapped }
{
    match inst {
        Inst::Alu { dst, src, .. }
        | Inst::Mov { dst, src }
        | Inst::Test { dst, src }
        | Inst::Imul2 { dst, src }
        | Inst::Imul3 { dst, src, .. } => is_no_word(dst) && is_no_word(src),
        Inst::Lea { dst: operand, .. }
        | Inst::Shift { dst: operand, .. }
        | Inst::Inc(operand)
        | Inst::Dec(operand)
        | Inst::Not(operand)
        | Inst::Neg(operand)
        | Inst::Mul(operand)
        | Inst::Imul1(operand)
        | Inst::Div(operand)
        | Inst::Idiv(operand)
        | Inst::CallAt(operand) => is_no_word(operand),
        Inst::Push(_) | Inst::Pop(_) => false,
        Inst::Cdq
        | Inst::Nop
        | Inst::Priv { .. }
        | Inst::CallRel(_)
        | Inst::Ret
        | Inst::Jmp(_)
        | Inst::Jcc(..) => true,
    }
}
