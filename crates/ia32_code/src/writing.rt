// Writing a filled row: opcode, ModRM byte with what belongs to it, trailing number.
ghost use Rattle.std.specs.Prelude.{◌≡◌, ◌+◌, ◌<◌, ◌≤◌, ◌∷◌, ◌++◌, length};
ghost use Rattle.ia32_code.specs.OperandForms.{modrm_byte, after_modrm, disp_bytes, FormFits};
ghost use Rattle.ia32_code.specs.Table.{opcode_bytes};
ghost use Rattle.ia32_code.specs.Spells.{Filled, ModRmFits, TrailingFits, text, modrm_bytes, trailing_bytes};

use crate::code_buf::CodeBuf;
use crate::instruction::Reg;
use crate::operand_form::{Displacement, OperandForm};
use crate::row::{ModRm, Trailing};
use crate::spelling::Spelling;
use crate::table::encoding_of;

/// Appends the bytes of a filled row.
pub fn push_spelling(room: &mut CodeBuf, spelling: Spelling)
    requires fits { Filled spelling }
    requires room { length room.old + length (text spelling) ≤ 16 }
    ensures { room.new ≡ room.old ++ text spelling }
{
    let encoding = encoding_of(spelling.row);
    push_opcode(room, encoding.escaped, encoding.opcode);
    push_modrm(room, encoding.modrm, spelling.reg, spelling.form);
    push_number(room, encoding.trailing, spelling.number);
}

fn push_opcode(room: &mut CodeBuf, escaped: bool, opcode: u8)
    requires { length room.old + length (opcode_bytes escaped opcode) ≤ 16 }
    ensures { room.new ≡ room.old ++ opcode_bytes escaped opcode }
{
    if escaped {
        room.push(0x0F);
    }
    room.push(opcode);
}

fn push_modrm(room: &mut CodeBuf, modrm: ModRm, reg: Reg, form: OperandForm)
    requires fits { ModRmFits modrm reg form }
    requires room { length room.old + length (modrm_bytes modrm reg form) ≤ 16 }
    ensures { room.new ≡ room.old ++ modrm_bytes modrm reg form }
{
    match modrm {
        ModRm::Absent => {}
        ModRm::Register | ModRm::Memory | ModRm::Digit(_) => push_form(room, reg.number(), form),
    }
}

fn push_form(room: &mut CodeBuf, digit: u8, form: OperandForm)
    requires digit { digit < 8 }
    requires fits { FormFits form }
    requires room { length room.old + (1 + length (after_modrm form)) ≤ 16 }
    ensures { room.new ≡ room.old ++ modrm_byte digit form ∷ after_modrm form }
{
    match form {
        OperandForm::Direct(reg) => room.push(192 + 8 * digit + reg.number()),
        OperandForm::Based(base, disp) => {
            room.push(64 * disp.mode() + 8 * digit + base.number());
            push_displacement(room, disp);
        }
        OperandForm::Absolute(word) => {
            room.push(8 * digit + 5);
            room.push_word(word);
        }
        OperandForm::Indexed(scale, index, base, disp) => {
            room.push(64 * disp.mode() + 8 * digit + 4);
            room.push(64 * scale + 8 * index.number() + base.number());
            push_displacement(room, disp);
        }
        OperandForm::Unbased(scale, index, word) => {
            room.push(8 * digit + 4);
            room.push(64 * scale + 8 * index.number() + 5);
            room.push_word(word);
        }
    }
}

fn push_displacement(room: &mut CodeBuf, disp: Displacement)
    requires { length room.old + length (disp_bytes disp) ≤ 16 }
    ensures { room.new ≡ room.old ++ disp_bytes disp }
{
    match disp {
        Displacement::NoDisp => {}
        Displacement::Disp8(byte) => room.push(byte),
        Displacement::Disp32(word) => room.push_word(word),
    }
}

fn push_number(room: &mut CodeBuf, trailing: Trailing, number: u32)
    requires fits { TrailingFits trailing number }
    requires room { length room.old + length (trailing_bytes trailing number) ≤ 16 }
    ensures { room.new ≡ room.old ++ trailing_bytes trailing number }
{
    match trailing {
        Trailing::Nothing => {}
        Trailing::Byte => room.push(number as u8),
        Trailing::Word => room.push_word(number),
    }
}
