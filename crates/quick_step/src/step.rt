// The step by the quick form: each case works on registers and words alone, and each is inlined where it stands in the match.
ghost use Rattle.std.specs.Prelude.{◌≡◌, ◌≢◌, ℕ, ◌+◌, ◌%◌, ◌^◌, Bool, None, true, if◌then◌else◌};
ghost use Rattle.std.specs.Int.{w32, cast_signed, cast_unsigned};
ghost use Rattle.ia32_code.specs.Canonical.{Canonical};
ghost use Rattle.ia32_code.specs.declared.instruction.Operand.TheVariants.{R, I};
ghost use Rattle.ia32_code.specs.declared.instruction.Count.TheVariants.{By, Cl};
ghost use Rattle.ia32_code.specs.declared.instruction.Inst.TheVariants as inst;
ghost use Rattle.ia32_step.specs.Conditions.{holds};
ghost use Rattle.ia32_step.specs.Operands.{state_of, effective_address};
ghost use Rattle.ia32_step.specs.Effects.{effect_of, after_instruction, below_top, top_of};
ghost use Rattle.ia32_step.specs.Reaches.{is_system, Reaches, IsReached};
ghost use Rattle.quick_step.specs.QuickForms.{inst_of, at_base, at_address, at_index, Executes, ExecutesOnRegisters};

use crate::conditions::holds;
use crate::products::{imul, mul};
use crate::quick_form::Quick;
use crate::sums::{alu, and, dec, inc, neg, sign_of};
use ia32_code::{Alu, Cond, Count, Inst, Operand, Reg, Shift};
use ia32_step::{Bus, Cpu, Effect, exec};

const EAX: usize = 0;

const EDX: usize = 2;

const ESP: usize = 4;

// ---- registers and numbers

#[inline(always)]
fn nop(cpu: &mut Cpu, len: u8) -> Effect
    ensures { ExecutesOnRegisters inst.Nop len cpu.old result cpu.new }
{
    cpu.pc = cpu.pc.wrapping_add(len as u32);
    Effect::Next
}

#[inline(always)]
fn cdq(cpu: &mut Cpu, len: u8) -> Effect
    ensures { ExecutesOnRegisters inst.Cdq len cpu.old result cpu.new }
{
    cpu.regs[EDX] = sign_of(cpu.regs[EAX]);
    cpu.pc = cpu.pc.wrapping_add(len as u32);
    Effect::Next
}

#[inline(always)]
fn mov_from(dst: Reg, src: Reg, cpu: &mut Cpu, len: u8) -> Effect
    ensures { ExecutesOnRegisters (inst.Mov (R dst) (R src)) len cpu.old result cpu.new }
{
    cpu.regs[dst as usize] = cpu.regs[src as usize];
    cpu.pc = cpu.pc.wrapping_add(len as u32);
    Effect::Next
}

#[inline(always)]
fn mov_word(dst: Reg, word: u32, cpu: &mut Cpu, len: u8) -> Effect
    ensures { ExecutesOnRegisters (inst.Mov (R dst) (I word)) len cpu.old result cpu.new }
{
    cpu.regs[dst as usize] = word;
    cpu.pc = cpu.pc.wrapping_add(len as u32);
    Effect::Next
}

#[inline(always)]
fn alu_from(op: Alu, dst: Reg, src: Reg, cpu: &mut Cpu, len: u8) -> Effect
    ensures { ExecutesOnRegisters (inst.Alu op (R dst) (R src)) len cpu.old result cpu.new }
{
    let (value, flags) = alu(op, cpu.regs[dst as usize], cpu.regs[src as usize]);
    cpu.flags = flags;
    match op {
        Alu::Cmp => {}
        Alu::Add | Alu::Or | Alu::And | Alu::Sub | Alu::Xor => cpu.regs[dst as usize] = value,
    }
    cpu.pc = cpu.pc.wrapping_add(len as u32);
    Effect::Next
}

#[inline(always)]
fn alu_word(op: Alu, dst: Reg, word: u32, cpu: &mut Cpu, len: u8) -> Effect
    ensures { ExecutesOnRegisters (inst.Alu op (R dst) (I word)) len cpu.old result cpu.new }
{
    let (value, flags) = alu(op, cpu.regs[dst as usize], word);
    cpu.flags = flags;
    match op {
        Alu::Cmp => {}
        Alu::Add | Alu::Or | Alu::And | Alu::Sub | Alu::Xor => cpu.regs[dst as usize] = value,
    }
    cpu.pc = cpu.pc.wrapping_add(len as u32);
    Effect::Next
}

#[inline(always)]
fn test_from(dst: Reg, src: Reg, cpu: &mut Cpu, len: u8) -> Effect
    ensures { ExecutesOnRegisters (inst.Test (R dst) (R src)) len cpu.old result cpu.new }
{
    let (_, flags) = and(cpu.regs[dst as usize], cpu.regs[src as usize]);
    cpu.flags = flags;
    cpu.pc = cpu.pc.wrapping_add(len as u32);
    Effect::Next
}

#[inline(always)]
fn test_word(dst: Reg, word: u32, cpu: &mut Cpu, len: u8) -> Effect
    ensures { ExecutesOnRegisters (inst.Test (R dst) (I word)) len cpu.old result cpu.new }
{
    let (_, flags) = and(cpu.regs[dst as usize], word);
    cpu.flags = flags;
    cpu.pc = cpu.pc.wrapping_add(len as u32);
    Effect::Next
}

#[inline(always)]
fn inc_register(dst: Reg, cpu: &mut Cpu, len: u8) -> Effect
    ensures { ExecutesOnRegisters (inst.Inc (R dst)) len cpu.old result cpu.new }
{
    let (value, flags) = inc(cpu.regs[dst as usize], cpu.flags);
    cpu.flags = flags;
    cpu.regs[dst as usize] = value;
    cpu.pc = cpu.pc.wrapping_add(len as u32);
    Effect::Next
}

#[inline(always)]
fn dec_register(dst: Reg, cpu: &mut Cpu, len: u8) -> Effect
    ensures { ExecutesOnRegisters (inst.Dec (R dst)) len cpu.old result cpu.new }
{
    let (value, flags) = dec(cpu.regs[dst as usize], cpu.flags);
    cpu.flags = flags;
    cpu.regs[dst as usize] = value;
    cpu.pc = cpu.pc.wrapping_add(len as u32);
    Effect::Next
}

#[inline(always)]
fn not_register(dst: Reg, cpu: &mut Cpu, len: u8) -> Effect
    ensures { ExecutesOnRegisters (inst.Not (R dst)) len cpu.old result cpu.new }
{
    cpu.regs[dst as usize] = !cpu.regs[dst as usize];
    cpu.pc = cpu.pc.wrapping_add(len as u32);
    Effect::Next
}

#[inline(always)]
fn neg_register(dst: Reg, cpu: &mut Cpu, len: u8) -> Effect
    ensures { ExecutesOnRegisters (inst.Neg (R dst)) len cpu.old result cpu.new }
{
    let (value, flags) = neg(cpu.regs[dst as usize]);
    cpu.flags = flags;
    cpu.regs[dst as usize] = value;
    cpu.pc = cpu.pc.wrapping_add(len as u32);
    Effect::Next
}

#[inline(always)]
fn mul_by(by: Reg, cpu: &mut Cpu, len: u8) -> Effect
    ensures { ExecutesOnRegisters (inst.Mul (R by)) len cpu.old result cpu.new }
{
    let (high, low, flags) = mul(cpu.regs[EAX], cpu.regs[by as usize], cpu.flags);
    cpu.flags = flags;
    cpu.regs[EAX] = low;
    cpu.regs[EDX] = high;
    cpu.pc = cpu.pc.wrapping_add(len as u32);
    Effect::Next
}

#[inline(always)]
fn imul_from(dst: Reg, src: Reg, cpu: &mut Cpu, len: u8) -> Effect
    ensures { ExecutesOnRegisters (inst.Imul2 (R dst) (R src)) len cpu.old result cpu.new }
{
    let (value, flags) = imul(cpu.regs[dst as usize], cpu.regs[src as usize], cpu.flags);
    cpu.flags = flags;
    cpu.regs[dst as usize] = value;
    cpu.pc = cpu.pc.wrapping_add(len as u32);
    Effect::Next
}

#[inline(always)]
fn imul_word(dst: Reg, src: Reg, word: u32, cpu: &mut Cpu, len: u8) -> Effect
    ensures { ExecutesOnRegisters (inst.Imul3 (R dst) (R src) word) len cpu.old result cpu.new }
{
    let (value, flags) = imul(cpu.regs[src as usize], word, cpu.flags);
    cpu.flags = flags;
    cpu.regs[dst as usize] = value;
    cpu.pc = cpu.pc.wrapping_add(len as u32);
    Effect::Next
}

#[inline(always)]
fn lea_from(dst: Reg, base: Reg, disp: u32, cpu: &mut Cpu, len: u8) -> Effect
    ensures { ExecutesOnRegisters (inst.Lea (R dst) (at_base base disp)) len cpu.old result cpu.new }
{
    cpu.regs[dst as usize] = address_based(base, disp, cpu);
    cpu.pc = cpu.pc.wrapping_add(len as u32);
    Effect::Next
}

// ---- instructions that go the whole way, out of line: they are rare, or slow in themselves

#[inline(never)]
fn imul_by<B: Bus>(by: Reg, cpu: &mut Cpu, bus: &mut B, len: u8) -> Effect
    requires { Canonical (inst.Imul1 (R by)) ≢ None }
    ensures { Executes (inst.Imul1 (R by)) len (state_of cpu.old (B.word_at bus.old)) (B.is_mapped bus.old) result cpu.new (B.word_at bus.new) (B.is_mapped bus.new) }
{
    exec(cpu, bus, &Inst::Imul1(Operand::R(by)), len)
}

#[inline(never)]
fn div_by<B: Bus>(by: Reg, cpu: &mut Cpu, bus: &mut B, len: u8) -> Effect
    requires { Canonical (inst.Div (R by)) ≢ None }
    ensures { Executes (inst.Div (R by)) len (state_of cpu.old (B.word_at bus.old)) (B.is_mapped bus.old) result cpu.new (B.word_at bus.new) (B.is_mapped bus.new) }
{
    exec(cpu, bus, &Inst::Div(Operand::R(by)), len)
}

#[inline(never)]
fn idiv_by<B: Bus>(by: Reg, cpu: &mut Cpu, bus: &mut B, len: u8) -> Effect
    requires { Canonical (inst.Idiv (R by)) ≢ None }
    ensures { Executes (inst.Idiv (R by)) len (state_of cpu.old (B.word_at bus.old)) (B.is_mapped bus.old) result cpu.new (B.word_at bus.new) (B.is_mapped bus.new) }
{
    exec(cpu, bus, &Inst::Idiv(Operand::R(by)), len)
}

#[inline(never)]
fn shift_by<B: Bus>(op: Shift, dst: Reg, by: u8, cpu: &mut Cpu, bus: &mut B, len: u8) -> Effect
    requires { Canonical (inst.Shift op (R dst) (By by)) ≢ None }
    ensures { Executes (inst.Shift op (R dst) (By by)) len (state_of cpu.old (B.word_at bus.old)) (B.is_mapped bus.old) result cpu.new (B.word_at bus.new) (B.is_mapped bus.new) }
{
    exec(
        cpu,
        bus,
        &Inst::Shift {
            op,
            dst: Operand::R(dst),
            by: Count::By(by),
        },
        len,
    )
}

#[inline(never)]
fn shift_by_cl<B: Bus>(op: Shift, dst: Reg, cpu: &mut Cpu, bus: &mut B, len: u8) -> Effect
    requires { Canonical (inst.Shift op (R dst) Cl) ≢ None }
    ensures { Executes (inst.Shift op (R dst) Cl) len (state_of cpu.old (B.word_at bus.old)) (B.is_mapped bus.old) result cpu.new (B.word_at bus.new) (B.is_mapped bus.new) }
{
    exec(
        cpu,
        bus,
        &Inst::Shift {
            op,
            dst: Operand::R(dst),
            by: Count::Cl,
        },
        len,
    )
}

// ---- the stack

#[inline(always)]
fn push_word<B: Bus>(word: u32, cpu: &mut Cpu, bus: &mut B, len: u8) -> Effect
    requires { B.is_mapped bus.old (below_top (state_of cpu.old (B.word_at bus.old))) ≡ true }
    ensures { Executes (inst.Push (I word)) len (state_of cpu.old (B.word_at bus.old)) (B.is_mapped bus.old) result cpu.new (B.word_at bus.new) (B.is_mapped bus.new) }
{
    let top = cpu.regs[ESP].wrapping_sub(4);
    bus.store(top, word);
    cpu.regs[ESP] = top;
    cpu.pc = cpu.pc.wrapping_add(len as u32);
    Effect::Next
}

#[inline(always)]
fn push_from<B: Bus>(src: Reg, cpu: &mut Cpu, bus: &mut B, len: u8) -> Effect
    requires { B.is_mapped bus.old (below_top (state_of cpu.old (B.word_at bus.old))) ≡ true }
    ensures { Executes (inst.Push (R src)) len (state_of cpu.old (B.word_at bus.old)) (B.is_mapped bus.old) result cpu.new (B.word_at bus.new) (B.is_mapped bus.new) }
{
    let top = cpu.regs[ESP].wrapping_sub(4);
    bus.store(top, cpu.regs[src as usize]);
    cpu.regs[ESP] = top;
    cpu.pc = cpu.pc.wrapping_add(len as u32);
    Effect::Next
}

#[inline(always)]
fn pop_into<B: Bus>(to: Reg, cpu: &mut Cpu, bus: &B, len: u8) -> Effect
    requires { B.is_mapped bus.now (top_of (state_of cpu.old (B.word_at bus.now))) ≡ true }
    ensures { Executes (inst.Pop to) len (state_of cpu.old (B.word_at bus.now)) (B.is_mapped bus.now) result cpu.new (B.word_at bus.now) (B.is_mapped bus.now) }
{
    let top = cpu.regs[ESP];
    let word = bus.load(top);
    cpu.regs[ESP] = top.wrapping_add(4);
    cpu.regs[to as usize] = word;
    cpu.pc = cpu.pc.wrapping_add(len as u32);
    Effect::Next
}

// ---- calls, jumps and branches

// A distance that is kept as its bits, from the instruction behind one of a length.
#[inline(always)]
fn target(distance: u32, pc: u32, len: u8) -> u32
    ensures { result ≡ ((pc + len) % 2 ^ 32 + cast_unsigned w32 (cast_signed w32 distance)) % 2 ^ 32 }
{
    pc.wrapping_add(len as u32).wrapping_add(distance)
}

#[inline(always)]
fn call_by(distance: u32, cpu: &mut Cpu, len: u8) -> Effect
    ensures { ExecutesOnRegisters (inst.CallRel (cast_signed w32 distance)) len cpu.old result cpu.new }
{
    Effect::Call(target(distance, cpu.pc, len))
}

#[inline(always)]
fn call_at(src: Reg, cpu: &mut Cpu, len: u8) -> Effect
    ensures { ExecutesOnRegisters (inst.CallAt (R src)) len cpu.old result cpu.new }
{
    Effect::Call(cpu.regs[src as usize])
}

#[inline(always)]
fn jump_by(distance: u32, cpu: &mut Cpu, len: u8) -> Effect
    ensures { ExecutesOnRegisters (inst.Jmp (cast_signed w32 distance)) len cpu.old result cpu.new }
{
    cpu.pc = target(distance, cpu.pc, len);
    Effect::Next
}

#[inline(always)]
fn branch_by(cond: Cond, distance: u32, cpu: &mut Cpu, len: u8) -> Effect
    ensures { ExecutesOnRegisters (inst.Jcc cond (cast_signed w32 distance)) len cpu.old result cpu.new }
{
    if holds(cond, cpu.flags) {
        cpu.pc = target(distance, cpu.pc, len);
    } else {
        cpu.pc = cpu.pc.wrapping_add(len as u32);
    }
    Effect::Next
}

// ---- words in memory

#[inline(always)]
fn address_based(base: Reg, disp: u32, cpu: &Cpu) -> u32
    ensures { result ≡ effective_address (at_base base disp) cpu.now.regs }
{
    cpu.regs[base as usize].wrapping_add(disp)
}

#[inline(always)]
fn address_absolute(address: u32, cpu: &Cpu) -> u32
    ensures { result ≡ effective_address (at_address address) cpu.now.regs }
{
    address
}

#[inline(always)]
fn address_indexed(base: Reg, index: Reg, disp: u32, cpu: &Cpu) -> u32
    ensures { result ≡ effective_address (at_index base index disp) cpu.now.regs }
{
    let start = cpu.regs[base as usize].wrapping_add(disp);
    start.wrapping_add(cpu.regs[index as usize].wrapping_mul(4))
}

#[inline(always)]
fn mov_load<B: Bus>(dst: Reg, base: Reg, disp: u32, cpu: &mut Cpu, bus: &B, len: u8) -> Effect
    requires { IsReached (at_base base disp) (state_of cpu.old (B.word_at bus.now)) (B.is_mapped bus.now) }
    ensures { Executes (inst.Mov (R dst) (at_base base disp)) len (state_of cpu.old (B.word_at bus.now)) (B.is_mapped bus.now) result cpu.new (B.word_at bus.now) (B.is_mapped bus.now) }
{
    cpu.regs[dst as usize] = bus.load(address_based(base, disp, cpu));
    cpu.pc = cpu.pc.wrapping_add(len as u32);
    Effect::Next
}

#[inline(always)]
fn mov_load_at<B: Bus>(dst: Reg, address: u32, cpu: &mut Cpu, bus: &B, len: u8) -> Effect
    requires { IsReached (at_address address) (state_of cpu.old (B.word_at bus.now)) (B.is_mapped bus.now) }
    ensures { Executes (inst.Mov (R dst) (at_address address)) len (state_of cpu.old (B.word_at bus.now)) (B.is_mapped bus.now) result cpu.new (B.word_at bus.now) (B.is_mapped bus.now) }
{
    cpu.regs[dst as usize] = bus.load(address);
    cpu.pc = cpu.pc.wrapping_add(len as u32);
    Effect::Next
}

#[inline(always)]
fn mov_load_indexed<B: Bus>(
    dst: Reg,
    base: Reg,
    index: Reg,
    disp: u32,
    cpu: &mut Cpu,
    bus: &B,
    len: u8,
) -> Effect
    requires { IsReached (at_index base index disp) (state_of cpu.old (B.word_at bus.now)) (B.is_mapped bus.now) }
    ensures { Executes (inst.Mov (R dst) (at_index base index disp)) len (state_of cpu.old (B.word_at bus.now)) (B.is_mapped bus.now) result cpu.new (B.word_at bus.now) (B.is_mapped bus.now) }
{
    cpu.regs[dst as usize] = bus.load(address_indexed(base, index, disp, cpu));
    cpu.pc = cpu.pc.wrapping_add(len as u32);
    Effect::Next
}

#[inline(always)]
fn mov_store<B: Bus>(base: Reg, src: Reg, disp: u32, cpu: &mut Cpu, bus: &mut B, len: u8) -> Effect
    requires { IsReached (at_base base disp) (state_of cpu.old (B.word_at bus.old)) (B.is_mapped bus.old) }
    ensures { Executes (inst.Mov (at_base base disp) (R src)) len (state_of cpu.old (B.word_at bus.old)) (B.is_mapped bus.old) result cpu.new (B.word_at bus.new) (B.is_mapped bus.new) }
{
    bus.store(address_based(base, disp, cpu), cpu.regs[src as usize]);
    cpu.pc = cpu.pc.wrapping_add(len as u32);
    Effect::Next
}

#[inline(always)]
fn mov_store_at<B: Bus>(src: Reg, address: u32, cpu: &mut Cpu, bus: &mut B, len: u8) -> Effect
    requires { IsReached (at_address address) (state_of cpu.old (B.word_at bus.old)) (B.is_mapped bus.old) }
    ensures { Executes (inst.Mov (at_address address) (R src)) len (state_of cpu.old (B.word_at bus.old)) (B.is_mapped bus.old) result cpu.new (B.word_at bus.new) (B.is_mapped bus.new) }
{
    bus.store(address, cpu.regs[src as usize]);
    cpu.pc = cpu.pc.wrapping_add(len as u32);
    Effect::Next
}

#[inline(always)]
fn mov_store_indexed<B: Bus>(
    base: Reg,
    index: Reg,
    src: Reg,
    disp: u32,
    cpu: &mut Cpu,
    bus: &mut B,
    len: u8,
) -> Effect
    requires { IsReached (at_index base index disp) (state_of cpu.old (B.word_at bus.old)) (B.is_mapped bus.old) }
    ensures { Executes (inst.Mov (at_index base index disp) (R src)) len (state_of cpu.old (B.word_at bus.old)) (B.is_mapped bus.old) result cpu.new (B.word_at bus.new) (B.is_mapped bus.new) }
{
    bus.store(
        address_indexed(base, index, disp, cpu),
        cpu.regs[src as usize],
    );
    cpu.pc = cpu.pc.wrapping_add(len as u32);
    Effect::Next
}

#[inline(always)]
fn mov_near<B: Bus>(base: Reg, disp: u8, word: u32, cpu: &mut Cpu, bus: &mut B, len: u8) -> Effect
    requires { IsReached (at_base base disp) (state_of cpu.old (B.word_at bus.old)) (B.is_mapped bus.old) }
    ensures { Executes (inst.Mov (at_base base disp) (I word)) len (state_of cpu.old (B.word_at bus.old)) (B.is_mapped bus.old) result cpu.new (B.word_at bus.new) (B.is_mapped bus.new) }
{
    bus.store(address_based(base, disp as u32, cpu), word);
    cpu.pc = cpu.pc.wrapping_add(len as u32);
    Effect::Next
}

#[inline(always)]
fn alu_load<B: Bus>(
    op: Alu,
    dst: Reg,
    base: Reg,
    disp: u32,
    cpu: &mut Cpu,
    bus: &B,
    len: u8,
) -> Effect
    requires { IsReached (at_base base disp) (state_of cpu.old (B.word_at bus.now)) (B.is_mapped bus.now) }
    ensures { Executes (inst.Alu op (R dst) (at_base base disp)) len (state_of cpu.old (B.word_at bus.now)) (B.is_mapped bus.now) result cpu.new (B.word_at bus.now) (B.is_mapped bus.now) }
{
    let word = bus.load(address_based(base, disp, cpu));
    let (value, flags) = alu(op, cpu.regs[dst as usize], word);
    cpu.flags = flags;
    match op {
        Alu::Cmp => {}
        Alu::Add | Alu::Or | Alu::And | Alu::Sub | Alu::Xor => cpu.regs[dst as usize] = value,
    }
    cpu.pc = cpu.pc.wrapping_add(len as u32);
    Effect::Next
}

#[inline(always)]
fn alu_load_at<B: Bus>(op: Alu, dst: Reg, address: u32, cpu: &mut Cpu, bus: &B, len: u8) -> Effect
    requires { IsReached (at_address address) (state_of cpu.old (B.word_at bus.now)) (B.is_mapped bus.now) }
    ensures { Executes (inst.Alu op (R dst) (at_address address)) len (state_of cpu.old (B.word_at bus.now)) (B.is_mapped bus.now) result cpu.new (B.word_at bus.now) (B.is_mapped bus.now) }
{
    let word = bus.load(address_absolute(address, cpu));
    let (value, flags) = alu(op, cpu.regs[dst as usize], word);
    cpu.flags = flags;
    match op {
        Alu::Cmp => {}
        Alu::Add | Alu::Or | Alu::And | Alu::Sub | Alu::Xor => cpu.regs[dst as usize] = value,
    }
    cpu.pc = cpu.pc.wrapping_add(len as u32);
    Effect::Next
}

#[inline(always)]
fn alu_store_at<B: Bus>(
    op: Alu,
    src: Reg,
    address: u32,
    cpu: &mut Cpu,
    bus: &mut B,
    len: u8,
) -> Effect
    requires { IsReached (at_address address) (state_of cpu.old (B.word_at bus.old)) (B.is_mapped bus.old) }
    ensures { Executes (inst.Alu op (at_address address) (R src)) len (state_of cpu.old (B.word_at bus.old)) (B.is_mapped bus.old) result cpu.new (B.word_at bus.new) (B.is_mapped bus.new) }
{
    let address = address_absolute(address, cpu);
    let (value, flags) = alu(op, bus.load(address), cpu.regs[src as usize]);
    cpu.flags = flags;
    match op {
        Alu::Cmp => {}
        Alu::Add | Alu::Or | Alu::And | Alu::Sub | Alu::Xor => bus.store(address, value),
    }
    cpu.pc = cpu.pc.wrapping_add(len as u32);
    Effect::Next
}

#[inline(always)]
fn alu_near<B: Bus>(
    op: Alu,
    base: Reg,
    disp: u8,
    word: u32,
    cpu: &mut Cpu,
    bus: &mut B,
    len: u8,
) -> Effect
    requires { IsReached (at_base base disp) (state_of cpu.old (B.word_at bus.old)) (B.is_mapped bus.old) }
    ensures { Executes (inst.Alu op (at_base base disp) (I word)) len (state_of cpu.old (B.word_at bus.old)) (B.is_mapped bus.old) result cpu.new (B.word_at bus.new) (B.is_mapped bus.new) }
{
    let address = address_based(base, disp as u32, cpu);
    let (value, flags) = alu(op, bus.load(address), word);
    cpu.flags = flags;
    match op {
        Alu::Cmp => {}
        Alu::Add | Alu::Or | Alu::And | Alu::Sub | Alu::Xor => bus.store(address, value),
    }
    cpu.pc = cpu.pc.wrapping_add(len as u32);
    Effect::Next
}

// ---- all forms

// The step, in one clause.
#[inline(always)]
fn run<B: Bus>(cpu: &mut Cpu, bus: &mut B, quick: &Quick, len: u8) -> Effect
    requires spelled { Canonical (inst_of quick.now) ≢ None }
    requires reached { Reaches (inst_of quick.now) (state_of cpu.old (B.word_at bus.old)) (B.is_mapped bus.old) }
    ensures { Executes (inst_of quick.now) len (state_of cpu.old (B.word_at bus.old)) (B.is_mapped bus.old) result cpu.new (B.word_at bus.new) (B.is_mapped bus.new) }
{
    match quick {
        Quick::Full => nop(cpu, len),
        Quick::Nop => nop(cpu, len),
        Quick::Cdq => cdq(cpu, len),
        Quick::Ret => Effect::Return,
        Quick::MovR(d, s) => mov_from(*d, *s, cpu, len),
        Quick::MovI(d, n) => mov_word(*d, *n, cpu, len),
        Quick::AddR(d, s) => alu_from(Alu::Add, *d, *s, cpu, len),
        Quick::AddI(d, n) => alu_word(Alu::Add, *d, *n, cpu, len),
        Quick::OrR(d, s) => alu_from(Alu::Or, *d, *s, cpu, len),
        Quick::OrI(d, n) => alu_word(Alu::Or, *d, *n, cpu, len),
        Quick::AndR(d, s) => alu_from(Alu::And, *d, *s, cpu, len),
        Quick::AndI(d, n) => alu_word(Alu::And, *d, *n, cpu, len),
        Quick::SubR(d, s) => alu_from(Alu::Sub, *d, *s, cpu, len),
        Quick::SubI(d, n) => alu_word(Alu::Sub, *d, *n, cpu, len),
        Quick::XorR(d, s) => alu_from(Alu::Xor, *d, *s, cpu, len),
        Quick::XorI(d, n) => alu_word(Alu::Xor, *d, *n, cpu, len),
        Quick::CmpR(d, s) => alu_from(Alu::Cmp, *d, *s, cpu, len),
        Quick::CmpI(d, n) => alu_word(Alu::Cmp, *d, *n, cpu, len),
        Quick::TestR(d, s) => test_from(*d, *s, cpu, len),
        Quick::TestI(d, n) => test_word(*d, *n, cpu, len),
        Quick::Inc(d) => inc_register(*d, cpu, len),
        Quick::Dec(d) => dec_register(*d, cpu, len),
        Quick::Not(d) => not_register(*d, cpu, len),
        Quick::Neg(d) => neg_register(*d, cpu, len),
        Quick::Mul(d) => mul_by(*d, cpu, len),
        Quick::Imul1(d) => imul_by(*d, cpu, bus, len),
        Quick::Div(d) => div_by(*d, cpu, bus, len),
        Quick::Idiv(d) => idiv_by(*d, cpu, bus, len),
        Quick::ImulR(d, s) => imul_from(*d, *s, cpu, len),
        Quick::ImulI(d, s, n) => imul_word(*d, *s, *n, cpu, len),
        Quick::Shl(d, k) => shift_by(Shift::Shl, *d, *k, cpu, bus, len),
        Quick::ShlCl(d) => shift_by_cl(Shift::Shl, *d, cpu, bus, len),
        Quick::Shr(d, k) => shift_by(Shift::Shr, *d, *k, cpu, bus, len),
        Quick::ShrCl(d) => shift_by_cl(Shift::Shr, *d, cpu, bus, len),
        Quick::Sar(d, k) => shift_by(Shift::Sar, *d, *k, cpu, bus, len),
        Quick::SarCl(d) => shift_by_cl(Shift::Sar, *d, cpu, bus, len),
        Quick::PushR(s) => push_from(*s, cpu, bus, len),
        Quick::PushI(n) => push_word(*n, cpu, bus, len),
        Quick::Pop(d) => pop_into(*d, cpu, bus, len),
        Quick::Call(z) => call_by(*z, cpu, len),
        Quick::CallAt(s) => call_at(*s, cpu, len),
        Quick::Jmp(z) => jump_by(*z, cpu, len),
        Quick::JO(z) => branch_by(Cond::O, *z, cpu, len),
        Quick::JNo(z) => branch_by(Cond::No, *z, cpu, len),
        Quick::JB(z) => branch_by(Cond::B, *z, cpu, len),
        Quick::JAe(z) => branch_by(Cond::Ae, *z, cpu, len),
        Quick::JE(z) => branch_by(Cond::E, *z, cpu, len),
        Quick::JNe(z) => branch_by(Cond::Ne, *z, cpu, len),
        Quick::JBe(z) => branch_by(Cond::Be, *z, cpu, len),
        Quick::JA(z) => branch_by(Cond::A, *z, cpu, len),
        Quick::JS(z) => branch_by(Cond::S, *z, cpu, len),
        Quick::JNs(z) => branch_by(Cond::Ns, *z, cpu, len),
        Quick::JL(z) => branch_by(Cond::L, *z, cpu, len),
        Quick::JGe(z) => branch_by(Cond::Ge, *z, cpu, len),
        Quick::JLe(z) => branch_by(Cond::Le, *z, cpu, len),
        Quick::JG(z) => branch_by(Cond::G, *z, cpu, len),
        Quick::MovLoad(d, b, n) => mov_load(*d, *b, *n, cpu, bus, len),
        Quick::MovStore(b, s, n) => mov_store(*b, *s, *n, cpu, bus, len),
        Quick::MovNearI(b, k, n) => mov_near(*b, *k, *n, cpu, bus, len),
        Quick::MovLoadAt(d, n) => mov_load_at(*d, *n, cpu, bus, len),
        Quick::MovStoreAt(s, n) => mov_store_at(*s, *n, cpu, bus, len),
        Quick::MovLoadIndexed(d, b, i, n) => mov_load_indexed(*d, *b, *i, *n, cpu, bus, len),
        Quick::MovStoreIndexed(b, i, s, n) => mov_store_indexed(*b, *i, *s, *n, cpu, bus, len),
        Quick::Lea(d, b, n) => lea_from(*d, *b, *n, cpu, len),
        Quick::AddLoad(d, b, n) => alu_load(Alu::Add, *d, *b, *n, cpu, bus, len),
        Quick::SubLoad(d, b, n) => alu_load(Alu::Sub, *d, *b, *n, cpu, bus, len),
        Quick::CmpLoad(d, b, n) => alu_load(Alu::Cmp, *d, *b, *n, cpu, bus, len),
        Quick::AddNearI(b, k, n) => alu_near(Alu::Add, *b, *k, *n, cpu, bus, len),
        Quick::SubNearI(b, k, n) => alu_near(Alu::Sub, *b, *k, *n, cpu, bus, len),
        Quick::CmpNearI(b, k, n) => alu_near(Alu::Cmp, *b, *k, *n, cpu, bus, len),
        Quick::AddLoadAt(d, n) => alu_load_at(Alu::Add, *d, *n, cpu, bus, len),
        Quick::AddStoreAt(s, n) => alu_store_at(Alu::Add, *s, *n, cpu, bus, len),
    }
}

/// Does what `ia32_step::exec` does with the instruction that the quick form stands for, which is spelled with `len` bytes.
///
/// The instruction has a spelling, and each word that it reads or writes is mapped.
///
/// Answers `Fault(0)` at the divide error of DIV and IDIV, `Call` for a CALL, `Return` for RET, and else `Next`. After `Next`
/// registers, flags and words are those of its effect, and `pc` is behind the instruction or at the target of the branch.
/// After any other answer nothing has changed.
#[inline(always)]
pub fn exec_quick<B: Bus>(cpu: &mut Cpu, bus: &mut B, quick: &Quick, len: u8) -> Effect
    requires spelled { Canonical (inst_of quick.now) ≢ None }
    requires reached { Reaches (inst_of quick.now) (state_of cpu.old (B.word_at bus.old)) (B.is_mapped bus.old) }
    ensures effect { result ≡ effect_of (inst_of quick.now) (state_of cpu.old (B.word_at bus.old)) len }
    ensures regs { cpu.new.regs ≡ (after_instruction (inst_of quick.now) len (state_of cpu.old (B.word_at bus.old))).regs }
    ensures flags { cpu.new.flags ≡ (after_instruction (inst_of quick.now) len (state_of cpu.old (B.word_at bus.old))).flags }
    ensures pc { cpu.new.pc ≡ (after_instruction (inst_of quick.now) len (state_of cpu.old (B.word_at bus.old))).pc }
    ensures words { (a : ℕ) → B.word_at bus.new a ≡ (after_instruction (inst_of quick.now) len (state_of cpu.old (B.word_at bus.old))).memory a }
    ensures mapped { (a : ℕ) → B.is_mapped bus.new a ≡ B.is_mapped bus.old a }
{
    run(cpu, bus, quick, len)
}
