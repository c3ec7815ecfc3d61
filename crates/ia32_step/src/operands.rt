ghost use Rattle.std.specs.Prelude.{◌≡◌, ℕ, ◌<◌, true};
ghost use Rattle.ia32_step.specs.Operands.{state_of, register, part_of, address_of, effective_address, read_word, put_word, put_computed, shift_count};
ghost use Rattle.ia32_step.specs.Reaches.{IsReached, IsScaled};

use crate::bus::Bus;
use crate::computed::Computed;
use crate::cpu::{Cpu, ECX};
use ia32_code::{Count, Mem, Operand, Reg};

fn part(register: Option<Reg>, cpu: &Cpu) -> u32
    ensures { result ≡ part_of register cpu.now.regs }
{
    match register {
        None => 0,
        Some(register) => cpu.regs[register as usize],
    }
}

fn address(mem: &Mem, cpu: &Cpu) -> u32
    requires { mem.now.scale < 4 }
    ensures { result ≡ address_of mem.now cpu.now.regs }
{
    let index = part(mem.index, cpu) << mem.scale;
    part(mem.base, cpu)
        .wrapping_add(index)
        .wrapping_add(mem.disp)
}

/// The address of an operand in memory; 0 for another, which has none.
pub(crate) fn effective_address(operand: &Operand, cpu: &Cpu) -> u32
    requires { IsScaled operand.now }
    ensures { result ≡ effective_address operand.now cpu.now.regs }
{
    match operand {
        Operand::M(mem) => address(mem, cpu),
        Operand::R(_) | Operand::I(_) => 0,
    }
}

/// The word that the operand stands for.
pub(crate) fn read<B: Bus>(operand: &Operand, cpu: &Cpu, bus: &B) -> u32
    requires scaled { IsScaled operand.now }
    requires reached { IsReached operand.now (state_of cpu.now (B.word_at bus.now)) (B.is_mapped bus.now) }
    ensures { result ≡ read_word operand.now (state_of cpu.now (B.word_at bus.now)) }
{
    match operand {
        Operand::R(register) => cpu.regs[*register as usize],
        Operand::M(mem) => bus.load(address(mem, cpu)),
        Operand::I(number) => *number,
    }
}

/// Puts a word into the operand. An immediate is no destination: nothing changes.
pub(crate) fn put<B: Bus>(operand: &Operand, word: u32, cpu: &mut Cpu, bus: &mut B)
    requires scaled { IsScaled operand.now }
    requires reached { IsReached operand.now (state_of cpu.old (B.word_at bus.old)) (B.is_mapped bus.old) }
    ensures regs { cpu.new.regs ≡ (put_word operand.now word (state_of cpu.old (B.word_at bus.old))).regs }
    ensures flags { cpu.new.flags ≡ cpu.old.flags }
    ensures pc { cpu.new.pc ≡ cpu.old.pc }
    ensures words { (a : ℕ) → B.word_at bus.new a ≡ (put_word operand.now word (state_of cpu.old (B.word_at bus.old))).memory a }
    ensures mapped { (a : ℕ) → B.is_mapped bus.new a ≡ B.is_mapped bus.old a }
{
    match operand {
        Operand::R(register) => cpu.regs[*register as usize] = word,
        Operand::M(mem) => {
            let address = address(mem, cpu);
            bus.store(address, word);
        }
        Operand::I(_) => {}
    }
}

/// Puts a result into the operand and sets its flags.
pub(crate) fn put_computed<B: Bus>(
    operand: &Operand,
    computed: Computed,
    cpu: &mut Cpu,
    bus: &mut B,
)
    requires scaled { IsScaled operand.now }
    requires reached { IsReached operand.now (state_of cpu.old (B.word_at bus.old)) (B.is_mapped bus.old) }
    ensures regs { cpu.new.regs ≡ (put_computed operand.now computed (state_of cpu.old (B.word_at bus.old))).regs }
    ensures flags { cpu.new.flags ≡ computed.flags }
    ensures pc { cpu.new.pc ≡ cpu.old.pc }
    ensures words { (a : ℕ) → B.word_at bus.new a ≡ (put_computed operand.now computed (state_of cpu.old (B.word_at bus.old))).memory a }
    ensures mapped { (a : ℕ) → B.is_mapped bus.new a ≡ B.is_mapped bus.old a }
{
    put(operand, computed.value, cpu, bus);
    cpu.flags = computed.flags;
}

/// How far a shift goes, before it is taken modulo 32.
pub(crate) fn count(by: Count, cpu: &Cpu) -> u32
    ensures { result ≡ shift_count by cpu.now.regs }
{
    match by {
        Count::By(count) => count as u32,
        Count::Cl => cpu.regs[ECX] % 256,
    }
}
