// Instructions that touch the one word of a memory. Those that touch none are cases of `step_cases`.
ghost use Rattle.std.specs.Prelude.{◌≡◌, ◌==◌, if◌then◌else◌};

use ia32_code::{Alu, Inst, Mem, Operand, Reg};
use ia32_step::{Bus, Cpu, Effect, exec};
use stack_states::FlagBits;
use std::test::*;

/// The word at 0x300000, and no other.
#[derive(Drop)]
struct OneWord {
    word: u32,
}

impl Bus for OneWord {
    ghost is_mapped = { λ _ a. a == 3145728 };

    ghost word_at = { λ bus a. (if a == 3145728 then bus.word else 0) };

    fn mapped(&self, address: u32) -> bool {
        address == 0x30_0000
    }

    fn load(&self, _address: u32) -> u32 {
        self.word
    }

    fn store(&mut self, _address: u32, word: u32) {
        self.word = word;
    }
}

// A processor at an instruction, with no flags.
const fn with(regs: [u32; 8]) -> Cpu
    ensures { result.regs ≡ regs }
{
    Cpu {
        regs,
        flags: FlagBits {
            carry: false,
            zero: false,
            sign: false,
            overflow: false,
        },
        pc: 0x40_0000,
    }
}

#[test]
fn a_sum_in_memory(rt: HostRuntime) {
    let mut bus = OneWord { word: 0xFFFF_FFFF };
    let regs = [2, 3, 0, 0x2F_FFEC, 0, 0, 0, 0];
    let mut cpu = with(regs);
    let place = Mem {
        base: Some(Reg::Ebx),
        index: Some(Reg::Ecx),
        scale: 2,
        disp: 8,
    };
    let sum = Inst::Alu {
        op: Alu::Add,
        dst: Operand::M(place),
        src: Operand::R(Reg::Eax),
    };
    assert!(rt; exec(&mut cpu, &mut bus, &sum, 4) == Effect::Next);
    assert!(rt; bus.mapped(0x30_0000) && !bus.mapped(0));
    assert!(rt; bus.word == 1);
    assert!(rt; cpu.regs == regs && cpu.pc == 0x40_0004);
    assert!(rt; cpu.flags.carry && !cpu.flags.zero && !cpu.flags.sign && !cpu.flags.overflow);
}

// What is pushed is ESP as it was before, and a word that is popped into ESP stays there.
#[test]
fn a_push_and_a_pop_of_esp(rt: HostRuntime) {
    let mut bus = OneWord { word: 0 };
    let mut cpu = with([0, 0, 0, 0, 0x30_0004, 0, 0, 0]);
    let push = Inst::Push(Operand::R(Reg::Esp));
    assert!(rt; exec(&mut cpu, &mut bus, &push, 1) == Effect::Next);
    assert!(rt; bus.word == 0x30_0004);
    assert!(rt; cpu.regs == [0, 0, 0, 0, 0x30_0000, 0, 0, 0]);
    bus.word = 5;
    assert!(rt; exec(&mut cpu, &mut bus, &Inst::Pop(Reg::Esp), 1) == Effect::Next);
    assert!(rt; cpu.regs == [0, 0, 0, 0, 5, 0, 0, 0]);
}
