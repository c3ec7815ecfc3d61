// A filled row of the table: its instruction and the length of its bytes.
ghost use Rattle.std.specs.Prelude.{◌≡◌, ◌≤◌, length};
ghost use Rattle.ia32_code.specs.OperandForms.{disp_bytes};
ghost use Rattle.ia32_code.specs.Spells.{Filled, text, meaning, modrm_bytes, trailing_bytes};
ghost use Rattle.ia32_code.specs.Canonical.{fill, without_modrm};

use crate::instruction::{Inst, Reg};
use crate::operand_form::{Displacement, OperandForm, operand_of};
use crate::row::{ModRm, Row, Trailing};
use crate::table::{build, encoding_of};

/// A row with its register or digit, operand form and number.
#[derive(Clone, Copy, Drop)]
pub struct Spelling {
    pub row: Row,
    pub reg: Reg,
    pub form: OperandForm,
    pub number: u32,
}

pub fn fill(row: Row, reg: Reg, form: OperandForm, number: u32) -> Spelling
    ensures { result ≡ fill row reg form number }
{
    Spelling {
        row,
        reg,
        form,
        number,
    }
}

/// A row that has no ModRM byte.
pub fn without_modrm(row: Row, number: u32) -> Spelling
    ensures { result ≡ without_modrm row number }
{
    fill(row, Reg::Eax, OperandForm::Direct(Reg::Eax), number)
}

/// The instruction that a filled row spells.
#[inline(always)]
pub fn meaning_of(spelling: Spelling) -> Inst
    requires { Filled spelling }
    ensures { result ≡ meaning spelling }
{
    build(
        spelling.row,
        spelling.reg,
        operand_of(spelling.form),
        spelling.number,
    )
}

/// How many bytes a filled row has.
pub fn length_of(spelling: Spelling) -> u8
    ensures { result ≡ length (text spelling) }
{
    let encoding = encoding_of(spelling.row);
    1 + encoding.escaped as u8
        + modrm_length(encoding.modrm, spelling.reg, spelling.form)
        + trailing_length(encoding.trailing, spelling.number)
}

fn modrm_length(modrm: ModRm, reg: Reg, form: OperandForm) -> u8
    ensures value { result ≡ length (modrm_bytes modrm reg form) }
    ensures small { result ≤ 6 }
{
    match modrm {
        ModRm::Absent => 0,
        ModRm::Register | ModRm::Memory | ModRm::Digit(_) => match form {
            OperandForm::Direct(_) => 1,
            OperandForm::Based(_, disp) => 1 + disp_length(disp),
            OperandForm::Absolute(_) => 5,
            OperandForm::Indexed(_, _, _, disp) => 2 + disp_length(disp),
            OperandForm::Unbased(_, _, _) => 6,
        },
    }
}

fn disp_length(disp: Displacement) -> u8
    ensures value { result ≡ length (disp_bytes disp) }
    ensures small { result ≤ 4 }
{
    match disp {
        Displacement::NoDisp => 0,
        Displacement::Disp8(_) => 1,
        Displacement::Disp32(_) => 4,
    }
}

fn trailing_length(trailing: Trailing, number: u32) -> u8
    ensures value { result ≡ length (trailing_bytes trailing number) }
    ensures small { result ≤ 4 }
{
    match trailing {
        Trailing::Nothing => 0,
        Trailing::Byte => 1,
        Trailing::Word => 4,
    }
}
