// Operand forms: the ModRM byte, the index byte (SIB) and the displacement, and the shortest form of an operand.
ghost use Rattle.std.specs.Prelude.{◌≡◌, ◌<◌};
ghost use Rattle.ia32_code.specs.OperandForms.{reg, sign_extended, mode, amount, index_register, scale_of, operand};
ghost use Rattle.ia32_code.specs.Canonical.{fits_byte, shortest_disp, memory_form, shortest_form};

use crate::instruction::{Mem, Operand, Reg};

/// A displacement: none, a byte that is sign extended, or a word.
#[derive(Clone, Copy, Drop)]
pub enum Displacement {
    NoDisp,
    Disp8(u8),
    Disp32(u32),
}

/// How an operand is spelled by a ModRM byte.
#[derive(Clone, Copy, Drop)]
pub enum OperandForm {
    /// A register.
    Direct(Reg),
    /// Memory at a base.
    Based(Reg, Displacement),
    /// Memory at a word alone.
    Absolute(u32),
    /// Memory by an index byte: scale bits, index and base.
    Indexed(u8, Reg, Reg, Displacement),
    /// Memory by an index byte without a base: scale bits, index and a word.
    Unbased(u8, Reg, u32),
}

impl Displacement {
    /// The upper two bits of the ModRM byte of an operand in memory.
    pub fn mode(self) -> u8
        ensures mode { result ≡ mode self }
        ensures below { result < 3 }
    {
        match self {
            Displacement::NoDisp => 0,
            Displacement::Disp8(_) => 1,
            Displacement::Disp32(_) => 2,
        }
    }
}

/// An operand in memory.
pub fn memory(base: Option<Reg>, index: Option<Reg>, scale: u8, disp: u32) -> Operand
    ensures { result ≡ Operand.M (record { base = base; index = index; scale = scale; disp = disp }) }
{
    Operand::M(Mem {
        base,
        index,
        scale,
        disp,
    })
}

impl Displacement {
    /// The number that is added to the address.
    fn amount(self) -> u32
        ensures { result ≡ amount self }
    {
        match self {
            Displacement::NoDisp => 0,
            Displacement::Disp8(byte) => sign_extend(byte),
            Displacement::Disp32(word) => word,
        }
    }
}

/// The register of a number below 8.
pub fn reg_of(number: u8) -> Reg
    ensures { result ≡ reg number }
{
    match number {
        0 => Reg::Eax,
        1 => Reg::Ecx,
        2 => Reg::Edx,
        3 => Reg::Ebx,
        4 => Reg::Esp,
        5 => Reg::Ebp,
        6 => Reg::Esi,
        _ => Reg::Edi,
    }
}

/// A byte, its sign extended to a word.
pub fn sign_extend(byte: u8) -> u32
    ensures { result ≡ sign_extended byte }
{
    if byte < 128 {
        byte as u32
    } else {
        byte as u32 + 0xFFFF_FF00
    }
}

/// An index of number 4 is none.
fn index_of(index: Reg) -> Option<Reg>
    ensures { result ≡ index_register index }
{
    if index == Reg::Esp { None } else { Some(index) }
}

/// The scale of an index: 0 where it is none, whatever the bits.
fn scale_of(index: Reg, bits: u8) -> u8
    ensures { result ≡ scale_of index bits }
{
    if index == Reg::Esp { 0 } else { bits }
}

/// The operand that a form stands for.
#[inline(always)]
pub fn operand_of(form: OperandForm) -> Operand
    ensures { result ≡ operand form }
{
    match form {
        OperandForm::Direct(reg) => Operand::R(reg),
        OperandForm::Based(base, disp) => memory(Some(base), None, 0, disp.amount()),
        OperandForm::Absolute(word) => memory(None, None, 0, word),
        OperandForm::Indexed(bits, index, base, disp) => {
            memory(
                Some(base),
                index_of(index),
                scale_of(index, bits),
                disp.amount(),
            )
        }
        OperandForm::Unbased(bits, index, word) => {
            memory(None, index_of(index), scale_of(index, bits), word)
        }
    }
}

/// Whether the number is a byte, sign extended.
pub fn fits_byte(number: u32) -> bool
    ensures { result ≡ fits_byte number }
{
    sign_extend((number & 0xFF) as u8) == number
}

/// The shortest displacement of a number, with a base.
pub fn shortest_disp(base: Reg, disp: u32) -> Displacement
    ensures { result ≡ shortest_disp base disp }
{
    if disp == 0 && base != Reg::Ebp {
        Displacement::NoDisp
    } else if fits_byte(disp) {
        Displacement::Disp8((disp & 0xFF) as u8)
    } else {
        Displacement::Disp32(disp)
    }
}

/// The shortest form of an operand in memory, if it has one.
fn memory_form(mem: Mem) -> Option<OperandForm>
    ensures { result ≡ memory_form mem.base mem.index mem.scale mem.disp }
{
    match (mem.base, mem.index) {
        (None, None) => if mem.scale == 0 {
            Some(OperandForm::Absolute(mem.disp))
        } else {
            None
        },
        (None, Some(index)) => {
            if index != Reg::Esp && mem.scale < 4 {
                Some(OperandForm::Unbased(mem.scale, index, mem.disp))
            } else {
                None
            }
        }
        (Some(base), None) => {
            if mem.scale != 0 {
                None
            } else if base == Reg::Esp {
                Some(OperandForm::Indexed(0, Reg::Esp, base, shortest_disp(base, mem.disp)))
            } else {
                Some(OperandForm::Based(base, shortest_disp(base, mem.disp)))
            }
        }
        (Some(base), Some(index)) => {
            if index != Reg::Esp && mem.scale < 4 {
                Some(OperandForm::Indexed(mem.scale, index, base, shortest_disp(base, mem.disp)))
            } else {
                None
            }
        }
    }
}

/// The shortest form of an operand, if it has one.
pub fn shortest_form(operand: Operand) -> Option<OperandForm>
    ensures { result ≡ shortest_form operand }
{
    match operand {
        Operand::R(reg) => Some(OperandForm::Direct(reg)),
        Operand::M(mem) => memory_form(mem),
        Operand::I(_) => None,
    }
}
