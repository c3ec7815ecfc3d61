// How a stack goes on.
ghost use Rattle.std.specs.Prelude.{◌≡◌, ◌≢◌, ◌<◌, true};
ghost use Rattle.stack_states.specs.declared.table.TheConstants.{MOST_STACKS};
ghost use Rattle.typed_machine.specs.Words.{stack_pointer};
ghost use Rattle.word_machine.specs.Memory.{is_mapped};
ghost use Rattle.nucleus_calls.specs.Calling.{fresh_cpu, GoesOn};

use ia32_step::Cpu;
use object_layout::areas::STACKS_START;
use stack_states::{FlagBits, StackState};
use word_machine::{Memory, STACK_WORDS};

/// A processor whose other registers are 0, with no flag set.
pub(crate) fn fresh_cpu(eax: u32, esp: u32, place: u32) -> Cpu
    ensures { result ≡ fresh_cpu eax esp place }
{
    let flags = FlagBits {
        carry: false,
        zero: false,
        sign: false,
        overflow: false,
    };
    Cpu {
        regs: [eax, 0, 0, 0, esp, 0, 0, 0],
        flags,
        pc: place,
    }
}

// ESP of a stack that has one word.
fn first_esp(stack: u32) -> u32
    requires { stack < MOST_STACKS }
    ensures { result ≡ stack_pointer stack 1 }
{
    STACKS_START + 4 * (STACK_WORDS as u32 * (stack + 1) - 1)
}

/// Stack `stack`, which did not run, goes on: an empty one at its start, with the end word alone; a yielded one after its
/// call, with the reply; an interrupted one as it was.
pub(crate) fn go_on(
    cpu: &mut Cpu,
    memory: &mut Memory,
    start: u32,
    stack: u32,
    was: StackState,
    reply: u32,
)
    requires few { stack < MOST_STACKS }
    requires room { is_mapped memory.old (stack_pointer stack 1) ≡ true }
    requires waits { was ≢ StackState.Running }
    ensures { GoesOn start stack reply was memory.old cpu.new memory.new }
{
    match was {
        StackState::Empty => {
            let esp = first_esp(stack);
            memory.put(esp, 0);
            *cpu = fresh_cpu(0, esp, start);
        }
        StackState::Running => unreachable!(),
        StackState::Yielded { sp, pc } => *cpu = fresh_cpu(reply, sp, pc),
        StackState::Interrupted { regs, flags, pc } => *cpu = Cpu { regs, flags, pc },
    }
}
