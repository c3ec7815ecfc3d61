#![tactic(auto, unfolding(crate::specs::Forms::address_at, crate::specs::Forms::form_of))]

ghost use Rattle.std.specs.Prelude.{◌≡◌, Some, true, false};
ghost use Rattle.tal_flow.specs.Forms.{address_at, one_operand, two_operands, three_operands, form_of};

use ia32_code::{Alu, Cond, Count, Inst, Mem, Operand, Reg, Shift};
use std::marker::Model;
use tal_types::FlagKind;

/// One, two or three operands.
#[derive(Debug, Drop)]
pub struct Operands {
    /// the operands, and the last of them again behind
    all: [Operand; 3],
    count: usize,
}

impl Model for Operands {
    ghost use Rattle.std.specs.Prelude.{◌≤◌, List, take};
    ghost use Rattle.ia32_code.specs.declared.instruction.Operand.{Operand};

    ghost Value = { List Operand };

    ghost view = { λ o. take o.count o.all };

    ghost invariant = { λ o. o.count ≤ 3 };
}

impl Operands {
    ghost use Rattle.std.specs.Prelude.{◌≡◌};

    /// The operands as a slice.
    pub(crate) fn as_slice(&self) -> &[Operand]
        ensures { result.now ≡ self.now }
    {
        &self.all[..self.count]
    }
}

/// An instruction, by what typing says of it. Targets are addresses.
#[derive(Debug, Drop)]
pub enum Form {
    /// an instruction of the system, or a LEA that is not of memory into a register
    Refused,
    /// an operation on numbers. Where it is `wide`, the upper half of the result goes to EDX; `kind` is the
    /// flag kind afterwards, none where it stays
    Compute {
        sources: Operands,
        destination: Operand,
        wide: bool,
        kind: Option<FlagKind>,
    },
    /// destination and source
    Move(Operand, Operand),
    /// the address of a memory operand into a register
    Address(Reg, Mem),
    /// what CMP compares with what
    Compare(Operand, Operand),
    /// the operands of TEST
    TestBits(Operand, Operand),
    PushOf(Operand),
    PopTo(Reg),
    /// a number that is added to ESP
    DropSlots(u32),
    CallTo(u32),
    /// a call of the address in the operand
    CallBy(Operand),
    Return,
    Jump(u32),
    Branch(Cond, u32),
    Nothing,
}

/// The address at a distance from the next instruction.
fn address_at(next: u32, distance: i32) -> u32
    ensures { result ≡ address_at next distance }
{
    next.wrapping_add(distance.cast_unsigned())
}

/// An operation on one operand, with its destination.
fn from_one(x: &Operand, d: &Operand, kind: Option<FlagKind>) -> Form
    ensures { result ≡ Form.Compute (one_operand x.now) d.now false kind }
{
    Form::Compute {
        sources: Operands {
            all: [*x, *x, *x],
            count: 1,
        },
        destination: *d,
        wide: false,
        kind,
    }
}

/// An operation on two operands, with its destination.
fn from_two(x: &Operand, y: &Operand, d: &Operand, kind: Option<FlagKind>) -> Form
    ensures { result ≡ Form.Compute (two_operands x.now y.now) d.now false kind }
{
    Form::Compute {
        sources: Operands {
            all: [*x, *y, *y],
            count: 2,
        },
        destination: *d,
        wide: false,
        kind,
    }
}

/// A product of EAX and an operand, which goes to EAX and EDX.
fn product(x: &Operand) -> Form
    ensures { result ≡ Form.Compute (two_operands (Operand.R Reg.Eax) x.now) (Operand.R Reg.Eax) true (Some FlagKind.Lost) }
{
    Form::Compute {
        sources: Operands {
            all: [Operand::R(Reg::Eax), *x, *x],
            count: 2,
        },
        destination: Operand::R(Reg::Eax),
        wide: true,
        kind: Some(FlagKind::Lost),
    }
}

/// A quotient of EDX and EAX by an operand, which goes to EAX and EDX.
fn quotient(x: &Operand) -> Form
    ensures { result ≡ Form.Compute (three_operands (Operand.R Reg.Eax) (Operand.R Reg.Edx) x.now) (Operand.R Reg.Eax) true (Some FlagKind.Lost) }
{
    Form::Compute {
        sources: Operands {
            all: [Operand::R(Reg::Eax), Operand::R(Reg::Edx), *x],
            count: 3,
        },
        destination: Operand::R(Reg::Eax),
        wide: true,
        kind: Some(FlagKind::Lost),
    }
}

/// The form of an operation of `Alu`.
fn alu_form(next: u32, op: Alu, dst: &Operand, src: &Operand) -> Form
    ensures { result ≡ form_of next (Inst.Alu op dst.now src.now) }
{
    match (op, dst, src) {
        (Alu::Cmp, _, _) => Form::Compare(*dst, *src),
        (Alu::Add, Operand::R(Reg::Esp), Operand::I(n)) => Form::DropSlots(*n),
        _ => from_two(dst, src, dst, Some(FlagKind::Num)),
    }
}

/// The form of a shift.
fn shift_form(next: u32, op: Shift, dst: &Operand, by: Count) -> Form
    ensures { result ≡ form_of next (Inst.Shift op dst.now by) }
{
    match by {
        Count::By(n) => from_one(
            dst,
            dst,
            if n % 32 == 0 {
                None
            } else {
                Some(FlagKind::Eq)
            },
        ),
        Count::Cl => from_two(dst, &Operand::R(Reg::Ecx), dst, Some(FlagKind::Lost)),
    }
}

/// The form of an instruction, where the next one is at `next`.
pub(crate) fn form_of(next: u32, inst: &Inst) -> Form
    ensures { result ≡ form_of next inst.now }
{
    match inst {
        Inst::Alu { op, dst, src } => alu_form(next, *op, dst, src),
        Inst::Mov { dst, src } => Form::Move(*dst, *src),
        Inst::Lea {
            dst: Operand::R(r),
            src: Operand::M(m),
        } => Form::Address(*r, *m),
        Inst::Lea { .. } | Inst::Priv { .. } => Form::Refused,
        Inst::Test { dst, src } => Form::TestBits(*dst, *src),
        Inst::Inc(dst) | Inst::Dec(dst) => from_one(dst, dst, Some(FlagKind::Eq)),
        Inst::Not(dst) => from_one(dst, dst, None),
        Inst::Neg(dst) => from_one(dst, dst, Some(FlagKind::Num)),
        Inst::Mul(src) | Inst::Imul1(src) => product(src),
        Inst::Div(src) | Inst::Idiv(src) => quotient(src),
        Inst::Imul2 { dst, src } => from_two(dst, src, dst, Some(FlagKind::Lost)),
        Inst::Imul3 { dst, src, imm } => {
            from_two(src, &Operand::I(*imm), dst, Some(FlagKind::Lost))
        }
        Inst::Shift { op, dst, by } => shift_form(next, *op, dst, *by),
        Inst::Cdq => from_one(&Operand::R(Reg::Eax), &Operand::R(Reg::Edx), None),
        Inst::Nop => Form::Nothing,
        Inst::Push(src) => Form::PushOf(*src),
        Inst::Pop(r) => Form::PopTo(*r),
        Inst::CallRel(distance) => Form::CallTo(address_at(next, *distance)),
        Inst::CallAt(src) => Form::CallBy(*src),
        Inst::Ret => Form::Return,
        Inst::Jmp(distance) => Form::Jump(address_at(next, *distance)),
        Inst::Jcc(condition, distance) => Form::Branch(*condition, address_at(next, *distance)),
    }
}
