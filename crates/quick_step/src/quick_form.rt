ghost use Rattle.std.specs.Prelude.{◌≡◌};
ghost use Rattle.std.specs.Int.{w32, cast_signed};
ghost use Rattle.ia32_code.specs.declared.instruction.Inst.TheVariants as inst;
ghost use Rattle.ia32_code.specs.declared.instruction.Operand.TheVariants.{I};
ghost use Rattle.quick_step.specs.QuickForms.{inst_of, at_base, IsQuickOf};

use ia32_code::{Alu, Cond, Count, Inst, Mem, Operand, Reg, Shift};

/// An instruction over registers and numbers; `Full` stands for every other one.
///
/// `R` is a register, `I` a number, `Load` and `Store` the word at a register and a displacement, `At` that at an address,
/// `Indexed` that at a register, a displacement and four times an index, and `NearI` a number and the word at a register and a
/// displacement below 256. Distances are kept as their bits.
#[derive(Clone, Copy, Drop)]
pub enum Quick {
    Full,
    Nop,
    Cdq,
    Ret,
    MovR(Reg, Reg),
    MovI(Reg, u32),
    AddR(Reg, Reg),
    AddI(Reg, u32),
    OrR(Reg, Reg),
    OrI(Reg, u32),
    AndR(Reg, Reg),
    AndI(Reg, u32),
    SubR(Reg, Reg),
    SubI(Reg, u32),
    XorR(Reg, Reg),
    XorI(Reg, u32),
    CmpR(Reg, Reg),
    CmpI(Reg, u32),
    TestR(Reg, Reg),
    TestI(Reg, u32),
    Inc(Reg),
    Dec(Reg),
    Not(Reg),
    Neg(Reg),
    Mul(Reg),
    Imul1(Reg),
    Div(Reg),
    Idiv(Reg),
    ImulR(Reg, Reg),
    ImulI(Reg, Reg, u32),
    Shl(Reg, u8),
    ShlCl(Reg),
    Shr(Reg, u8),
    ShrCl(Reg),
    Sar(Reg, u8),
    SarCl(Reg),
    PushR(Reg),
    PushI(u32),
    Pop(Reg),
    Call(u32),
    CallAt(Reg),
    Jmp(u32),
    JO(u32),
    JNo(u32),
    JB(u32),
    JAe(u32),
    JE(u32),
    JNe(u32),
    JBe(u32),
    JA(u32),
    JS(u32),
    JNs(u32),
    JL(u32),
    JGe(u32),
    JLe(u32),
    JG(u32),
    MovLoad(Reg, Reg, u32),
    MovStore(Reg, Reg, u32),
    MovNearI(Reg, u8, u32),
    MovLoadAt(Reg, u32),
    MovStoreAt(Reg, u32),
    MovLoadIndexed(Reg, Reg, Reg, u32),
    MovStoreIndexed(Reg, Reg, Reg, u32),
    Lea(Reg, Reg, u32),
    AddLoad(Reg, Reg, u32),
    SubLoad(Reg, Reg, u32),
    CmpLoad(Reg, Reg, u32),
    AddNearI(Reg, u8, u32),
    SubNearI(Reg, u8, u32),
    CmpNearI(Reg, u8, u32),
    AddLoadAt(Reg, u32),
    AddStoreAt(Reg, u32),
}

/// The quick form of an instruction, and `Full` where it has none.
pub fn quick_of(inst: &Inst) -> Quick
    ensures { IsQuickOf result inst.now }
{
    match inst {
        Inst::Alu {
            op,
            dst: Operand::R(d),
            src: Operand::R(s),
        } => match op {
            Alu::Add => Quick::AddR(*d, *s),
            Alu::Or => Quick::OrR(*d, *s),
            Alu::And => Quick::AndR(*d, *s),
            Alu::Sub => Quick::SubR(*d, *s),
            Alu::Xor => Quick::XorR(*d, *s),
            Alu::Cmp => Quick::CmpR(*d, *s),
        },
        Inst::Alu {
            op,
            dst: Operand::R(d),
            src: Operand::I(n),
        } => match op {
            Alu::Add => Quick::AddI(*d, *n),
            Alu::Or => Quick::OrI(*d, *n),
            Alu::And => Quick::AndI(*d, *n),
            Alu::Sub => Quick::SubI(*d, *n),
            Alu::Xor => Quick::XorI(*d, *n),
            Alu::Cmp => Quick::CmpI(*d, *n),
        },
        Inst::Alu {
            op,
            dst: Operand::R(d),
            src: Operand::M(
                Mem {
                    base: Some(b),
                    index: None,
                    scale: 0,
                    disp,
                },
            ),
        } => match op {
            Alu::Add => Quick::AddLoad(*d, *b, *disp),
            Alu::Sub => Quick::SubLoad(*d, *b, *disp),
            Alu::Cmp => Quick::CmpLoad(*d, *b, *disp),
            Alu::Or | Alu::And | Alu::Xor => Quick::Full,
        },
        Inst::Alu {
            op,
            dst: Operand::R(d),
            src: Operand::M(
                Mem {
                    base: None,
                    index: None,
                    scale: 0,
                    disp,
                },
            ),
        } => match op {
            Alu::Add => Quick::AddLoadAt(*d, *disp),
            Alu::Or | Alu::And | Alu::Sub | Alu::Xor | Alu::Cmp => Quick::Full,
        },
        Inst::Alu {
            op,
            dst: Operand::M(
                Mem {
                    base: None,
                    index: None,
                    scale: 0,
                    disp,
                },
            ),
            src: Operand::R(s),
        } => match op {
            Alu::Add => Quick::AddStoreAt(*s, *disp),
            Alu::Or | Alu::And | Alu::Sub | Alu::Xor | Alu::Cmp => Quick::Full,
        },
        Inst::Alu {
            op,
            dst: Operand::M(
                Mem {
                    base: Some(b),
                    index: None,
                    scale: 0,
                    disp,
                },
            ),
            src: Operand::I(n),
        } => near_alu(*op, *b, *disp, *n),
        Inst::Mov {
            dst: Operand::R(d),
            src: Operand::R(s),
        } => Quick::MovR(*d, *s),
        Inst::Mov {
            dst: Operand::R(d),
            src: Operand::I(n),
        } => Quick::MovI(*d, *n),
        Inst::Mov {
            dst: Operand::R(d),
            src: Operand::M(
                Mem {
                    base: Some(b),
                    index: None,
                    scale: 0,
                    disp,
                },
            ),
        } => Quick::MovLoad(*d, *b, *disp),
        Inst::Mov {
            dst: Operand::M(
                Mem {
                    base: Some(b),
                    index: None,
                    scale: 0,
                    disp,
                },
            ),
            src: Operand::R(s),
        } => Quick::MovStore(*b, *s, *disp),
        Inst::Mov {
            dst: Operand::M(
                Mem {
                    base: Some(b),
                    index: None,
                    scale: 0,
                    disp,
                },
            ),
            src: Operand::I(n),
        } => near_mov(*b, *disp, *n),
        Inst::Mov {
            dst: Operand::R(d),
            src: Operand::M(
                Mem {
                    base: None,
                    index: None,
                    scale: 0,
                    disp,
                },
            ),
        } => Quick::MovLoadAt(*d, *disp),
        Inst::Mov {
            dst: Operand::M(
                Mem {
                    base: None,
                    index: None,
                    scale: 0,
                    disp,
                },
            ),
            src: Operand::R(s),
        } => Quick::MovStoreAt(*s, *disp),
        Inst::Mov {
            dst: Operand::R(d),
            src: Operand::M(
                Mem {
                    base: Some(b),
                    index: Some(i),
                    scale: 2,
                    disp,
                },
            ),
        } => Quick::MovLoadIndexed(*d, *b, *i, *disp),
        Inst::Mov {
            dst: Operand::M(
                Mem {
                    base: Some(b),
                    index: Some(i),
                    scale: 2,
                    disp,
                },
            ),
            src: Operand::R(s),
        } => Quick::MovStoreIndexed(*b, *i, *s, *disp),
        Inst::Lea {
            dst: Operand::R(d),
            src: Operand::M(
                Mem {
                    base: Some(b),
                    index: None,
                    scale: 0,
                    disp,
                },
            ),
        } => Quick::Lea(*d, *b, *disp),
        Inst::Test {
            dst: Operand::R(d),
            src: Operand::R(s),
        } => Quick::TestR(*d, *s),
        Inst::Test {
            dst: Operand::R(d),
            src: Operand::I(n),
        } => Quick::TestI(*d, *n),
        Inst::Imul2 {
            dst: Operand::R(d),
            src: Operand::R(s),
        } => Quick::ImulR(*d, *s),
        Inst::Imul3 {
            dst: Operand::R(d),
            src: Operand::R(s),
            imm,
        } => Quick::ImulI(*d, *s, *imm),
        Inst::Shift {
            op,
            dst: Operand::R(d),
            by: Count::By(k),
        } => match op {
            Shift::Shl => Quick::Shl(*d, *k),
            Shift::Shr => Quick::Shr(*d, *k),
            Shift::Sar => Quick::Sar(*d, *k),
        },
        Inst::Shift {
            op,
            dst: Operand::R(d),
            by: Count::Cl,
        } => match op {
            Shift::Shl => Quick::ShlCl(*d),
            Shift::Shr => Quick::ShrCl(*d),
            Shift::Sar => Quick::SarCl(*d),
        },
        Inst::Inc(Operand::R(d)) => Quick::Inc(*d),
        Inst::Dec(Operand::R(d)) => Quick::Dec(*d),
        Inst::Not(Operand::R(d)) => Quick::Not(*d),
        Inst::Neg(Operand::R(d)) => Quick::Neg(*d),
        Inst::Mul(Operand::R(d)) => Quick::Mul(*d),
        Inst::Imul1(Operand::R(d)) => Quick::Imul1(*d),
        Inst::Div(Operand::R(d)) => Quick::Div(*d),
        Inst::Idiv(Operand::R(d)) => Quick::Idiv(*d),
        Inst::Push(Operand::R(s)) => Quick::PushR(*s),
        Inst::Push(Operand::I(n)) => Quick::PushI(*n),
        Inst::Pop(d) => Quick::Pop(*d),
        Inst::CallRel(z) => Quick::Call(z.cast_unsigned()),
        Inst::CallAt(Operand::R(s)) => Quick::CallAt(*s),
        Inst::Ret => Quick::Ret,
        Inst::Jmp(z) => Quick::Jmp(z.cast_unsigned()),
        Inst::Jcc(cond, z) => branch(*cond, z.cast_unsigned()),
        Inst::Cdq => Quick::Cdq,
        Inst::Nop => Quick::Nop,
        _ => Quick::Full,
    }
}

// A branch by a distance that is kept as its bits.
fn branch(cond: Cond, distance: u32) -> Quick
    ensures { inst_of result ≡ inst.Jcc cond (cast_signed w32 distance) }
{
    match cond {
        Cond::O => Quick::JO(distance),
        Cond::No => Quick::JNo(distance),
        Cond::B => Quick::JB(distance),
        Cond::Ae => Quick::JAe(distance),
        Cond::E => Quick::JE(distance),
        Cond::Ne => Quick::JNe(distance),
        Cond::Be => Quick::JBe(distance),
        Cond::A => Quick::JA(distance),
        Cond::S => Quick::JS(distance),
        Cond::Ns => Quick::JNs(distance),
        Cond::L => Quick::JL(distance),
        Cond::Ge => Quick::JGe(distance),
        Cond::Le => Quick::JLe(distance),
        Cond::G => Quick::JG(distance),
    }
}

// A number moved to a word near a register.
fn near_mov(base: Reg, disp: u32, word: u32) -> Quick
    ensures { IsQuickOf result (inst.Mov (at_base base disp) (I word)) }
{
    if disp >= 256 {
        return Quick::Full;
    }
    Quick::MovNearI(base, disp as u8, word)
}

// An operation on a word near a register and a number.
fn near_alu(op: Alu, base: Reg, disp: u32, word: u32) -> Quick
    ensures { IsQuickOf result (inst.Alu op (at_base base disp) (I word)) }
{
    if disp >= 256 {
        return Quick::Full;
    }
    match op {
        Alu::Add => Quick::AddNearI(base, disp as u8, word),
        Alu::Sub => Quick::SubNearI(base, disp as u8, word),
        Alu::Cmp => Quick::CmpNearI(base, disp as u8, word),
        Alu::Or | Alu::And | Alu::Xor => Quick::Full,
    }
}
