ghost use Rattle.std.specs.Prelude.{◌≡◌, ◌≢◌, ℕ, ◌+◌, ◌%◌, ◌^◌, None, true, false};
ghost use Rattle.std.specs.Int.{w32, cast_unsigned};
ghost use Rattle.ia32_code.specs.Canonical.{Canonical};
ghost use Rattle.ia32_step.specs.Operands.{state_of};
ghost use Rattle.ia32_step.specs.Effects.{set_wide, operated, multiplied, pushed, popped_into, below_top, top_of, effect_of, after_instruction};
ghost use Rattle.ia32_step.specs.Reaches.{is_system, Reaches, IsReached, IsScaled, HasScales};

use crate::bus::Bus;
use crate::conditions::holds;
use crate::cpu::{Cpu, EAX, EDX, ESP};
use crate::effect::Effect;
use crate::operands::{count, effective_address, put, put_computed, read};
use crate::products::{Product, imul, imul_wide, mul};
use crate::quotients::{Quotient, div, idiv};
use crate::shifts::shift;
use crate::sums::{alu, and, dec, inc, neg, sign_of};
use ia32_code::{Alu, Inst, Operand, Reg};

/// Runs an instruction that is spelled with `len` bytes (Intel SDM vol. 2).
///
/// The instruction has a spelling and is none of the system's, and each word that it reads or writes is mapped.
///
/// Answers `Fault(0)` at the divide error of DIV and IDIV, `Call` for a CALL, `Return` for RET, and else `Next`. After `Next`
/// registers, flags and words are those of its effect, and `pc` is behind the instruction or at the target of the branch.
/// After any other answer nothing has changed.
pub fn exec<B: Bus>(cpu: &mut Cpu, bus: &mut B, inst: &Inst, len: u8) -> Effect
    requires spelled { Canonical inst.now ≢ None }
    requires runs { is_system inst.now ≡ false }
    requires reached { Reaches inst.now (state_of cpu.old (B.word_at bus.old)) (B.is_mapped bus.old) }

    ensures effect { result ≡ effect_of inst.now (state_of cpu.old (B.word_at bus.old)) len }
    ensures regs { cpu.new.regs ≡ (after_instruction inst.now len (state_of cpu.old (B.word_at bus.old))).regs }
    ensures flags { cpu.new.flags ≡ (after_instruction inst.now len (state_of cpu.old (B.word_at bus.old))).flags }
    ensures pc { cpu.new.pc ≡ (after_instruction inst.now len (state_of cpu.old (B.word_at bus.old))).pc }
    ensures words { (a : ℕ) → B.word_at bus.new a ≡ (after_instruction inst.now len (state_of cpu.old (B.word_at bus.old))).memory a }
    ensures mapped { (a : ℕ) → B.is_mapped bus.new a ≡ B.is_mapped bus.old a }
{
    scaled(inst);
    let mut next = cpu.pc.wrapping_add(len as u32);
    let (eax, edx) = (cpu.regs[EAX], cpu.regs[EDX]);
    match *inst {
        Inst::Alu { op, dst, src } => operate(op, &dst, &src, cpu, bus),
        Inst::Mov { dst, src } => put(&dst, read(&src, cpu, bus), cpu, bus),
        Inst::Lea { dst, src } => put(&dst, effective_address(&src, cpu), cpu, bus),
        Inst::Test { dst, src } => {
            cpu.flags = and(read(&dst, cpu, bus), read(&src, cpu, bus)).flags;
        }
        Inst::Inc(to) => put_computed(&to, inc(read(&to, cpu, bus), cpu.flags), cpu, bus),
        Inst::Dec(to) => put_computed(&to, dec(read(&to, cpu, bus), cpu.flags), cpu, bus),
        Inst::Not(to) => put(&to, !read(&to, cpu, bus), cpu, bus),
        Inst::Neg(to) => put_computed(&to, neg(read(&to, cpu, bus)), cpu, bus),
        Inst::Mul(by) => put_product(mul(eax, read(&by, cpu, bus), cpu.flags), cpu),
        Inst::Imul1(by) => put_product(imul_wide(eax, read(&by, cpu, bus), cpu.flags), cpu),
        Inst::Div(by) => match div(edx, eax, read(&by, cpu, bus)) {
            Some(quotient) => put_quotient(quotient, cpu),
            None => return Effect::Fault(0),
        },
        Inst::Idiv(by) => match idiv(edx, eax, read(&by, cpu, bus)) {
            Some(quotient) => put_quotient(quotient, cpu),
            None => return Effect::Fault(0),
        },
        Inst::Imul2 { dst, src } => multiply(&dst, &dst, &src, cpu, bus),
        Inst::Imul3 { dst, src, imm } => multiply(&dst, &src, &Operand::I(imm), cpu, bus),
        Inst::Shift { op, dst, by } => {
            let shifted = shift(op, read(&dst, cpu, bus), count(by, cpu), cpu.flags);
            put_computed(&dst, shifted, cpu, bus);
        }
        Inst::Cdq => cpu.regs[EDX] = sign_of(eax),
        Inst::Nop => {}
        Inst::Priv { .. } => unreachable!(),
        Inst::Push(word) => push(read(&word, cpu, bus), cpu, bus),
        Inst::Pop(to) => pop(to, cpu, bus),
        Inst::CallRel(distance) => return Effect::Call(target(next, distance)),
        Inst::CallAt(function) => return Effect::Call(read(&function, cpu, bus)),
        Inst::Ret => return Effect::Return,
        Inst::Jmp(distance) => next = target(next, distance),
        Inst::Jcc(cond, distance) if holds(cond, cpu.flags) => next = target(next, distance),
        Inst::Jcc(..) => {}
    }
    cpu.pc = next;
    Effect::Next
}

/// The scales of an instruction that has a spelling are below 4: a fact for the proofs.
fn scaled(inst: &Inst)
    requires { Canonical inst.now ≢ None }
    ensures { HasScales inst.now }
{}

/// A distance from the next instruction, modulo 2^32.
fn target(next: u32, distance: i32) -> u32
    ensures { result ≡ (next + cast_unsigned w32 distance) % 2 ^ 32 }
{
    next.wrapping_add(distance.cast_unsigned())
}

/// An operation on two operands. CMP sets the flags alone.
fn operate<B: Bus>(op: Alu, dst: &Operand, src: &Operand, cpu: &mut Cpu, bus: &mut B)
    requires scaled { IsScaled dst.now × IsScaled src.now }
    requires reached { IsReached dst.now (state_of cpu.old (B.word_at bus.old)) (B.is_mapped bus.old) × IsReached src.now (state_of cpu.old (B.word_at bus.old)) (B.is_mapped bus.old) }

    ensures regs { cpu.new.regs ≡ (operated op dst.now src.now (state_of cpu.old (B.word_at bus.old))).regs }
    ensures flags { cpu.new.flags ≡ (operated op dst.now src.now (state_of cpu.old (B.word_at bus.old))).flags }
    ensures pc { cpu.new.pc ≡ cpu.old.pc }
    ensures words { (a : ℕ) → B.word_at bus.new a ≡ (operated op dst.now src.now (state_of cpu.old (B.word_at bus.old))).memory a }
    ensures mapped { (a : ℕ) → B.is_mapped bus.new a ≡ B.is_mapped bus.old a }
{
    let computed = alu(op, read(dst, cpu, bus), read(src, cpu, bus));
    match op {
        Alu::Cmp => cpu.flags = computed.flags,
        Alu::Add | Alu::Or | Alu::And | Alu::Sub | Alu::Xor => put_computed(
            dst, computed, cpu, bus,
        ),
    }
}

/// Puts the lower word of the product of two operands into `dst`.
fn multiply<B: Bus>(dst: &Operand, a: &Operand, b: &Operand, cpu: &mut Cpu, bus: &mut B)
    requires scaled { IsScaled dst.now × IsScaled a.now × IsScaled b.now }
    requires reached { IsReached dst.now (state_of cpu.old (B.word_at bus.old)) (B.is_mapped bus.old) }
    requires read { IsReached a.now (state_of cpu.old (B.word_at bus.old)) (B.is_mapped bus.old) × IsReached b.now (state_of cpu.old (B.word_at bus.old)) (B.is_mapped bus.old) }

    ensures regs { cpu.new.regs ≡ (multiplied dst.now a.now b.now (state_of cpu.old (B.word_at bus.old))).regs }
    ensures flags { cpu.new.flags ≡ (multiplied dst.now a.now b.now (state_of cpu.old (B.word_at bus.old))).flags }
    ensures pc { cpu.new.pc ≡ cpu.old.pc }
    ensures words { (a' : ℕ) → B.word_at bus.new a' ≡ (multiplied dst.now a.now b.now (state_of cpu.old (B.word_at bus.old))).memory a' }
    ensures mapped { (a' : ℕ) → B.is_mapped bus.new a' ≡ B.is_mapped bus.old a' }
{
    let product = imul(read(a, cpu, bus), read(b, cpu, bus), cpu.flags);
    put_computed(dst, product, cpu, bus);
}

/// Puts a product into EDX and EAX and sets its flags.
fn put_product(product: Product, cpu: &mut Cpu)
    ensures regs { cpu.new.regs ≡ set_wide product.high product.low cpu.old.regs }
    ensures flags { cpu.new.flags ≡ product.flags }
    ensures pc { cpu.new.pc ≡ cpu.old.pc }
{
    cpu.regs[EAX] = product.low;
    cpu.regs[EDX] = product.high;
    cpu.flags = product.flags;
}

/// Puts a quotient into EAX and its remainder into EDX.
fn put_quotient(quotient: Quotient, cpu: &mut Cpu)
    ensures regs { cpu.new.regs ≡ set_wide quotient.remainder quotient.quotient cpu.old.regs }
    ensures flags { cpu.new.flags ≡ cpu.old.flags }
    ensures pc { cpu.new.pc ≡ cpu.old.pc }
{
    cpu.regs[EAX] = quotient.quotient;
    cpu.regs[EDX] = quotient.remainder;
}

/// Puts a word below the top of the stack, which moves there.
fn push<B: Bus>(word: u32, cpu: &mut Cpu, bus: &mut B)
    requires { B.is_mapped bus.old (below_top (state_of cpu.old (B.word_at bus.old))) ≡ true }
    ensures regs { cpu.new.regs ≡ (pushed word (state_of cpu.old (B.word_at bus.old))).regs }
    ensures flags { cpu.new.flags ≡ cpu.old.flags }
    ensures pc { cpu.new.pc ≡ cpu.old.pc }
    ensures words { (a : ℕ) → B.word_at bus.new a ≡ (pushed word (state_of cpu.old (B.word_at bus.old))).memory a }
    ensures mapped { (a : ℕ) → B.is_mapped bus.new a ≡ B.is_mapped bus.old a }
{
    let top = cpu.regs[ESP].wrapping_sub(4);
    bus.store(top, word);
    cpu.regs[ESP] = top;
}

/// Takes the word on top of the stack into a register.
fn pop<B: Bus>(to: Reg, cpu: &mut Cpu, bus: &B)
    requires { B.is_mapped bus.now (top_of (state_of cpu.old (B.word_at bus.now))) ≡ true }
    ensures regs { cpu.new.regs ≡ (popped_into to (state_of cpu.old (B.word_at bus.now))).regs }
    ensures flags { cpu.new.flags ≡ cpu.old.flags }
    ensures pc { cpu.new.pc ≡ cpu.old.pc }
{
    let top = cpu.regs[ESP];
    let word = bus.load(top);
    cpu.regs[ESP] = top.wrapping_add(4);
    cpu.regs[to as usize] = word;
}
