// Stacks that hand over to one another.
use stack_states::{FlagBits, StackState, Stacks};
use std::test::Fail;

const FLAGS: FlagBits = FlagBits {
    carry: true,
    zero: false,
    sign: true,
    overflow: false,
};

#[test]
fn stacks_hand_over_to_one_another(rt: HostRuntime) -> Result<(), Fail> {
    let mut stacks = Stacks::new(rt.alloc(), 3)?;
    assert!(rt; stacks.count() == 3 && stacks.current() == 0);
    assert!(rt; stacks.switch(1, 8, 16) == StackState::Empty);
    let regs = [1, 2, 3, 4, 5, 6, 7, 8];
    assert!(rt; stacks.interrupt(regs, FLAGS, 20) == StackState::Yielded { sp: 8, pc: 16 });
    let interrupted = StackState::Interrupted {
        regs,
        flags: FLAGS,
        pc: 20,
    };
    assert!(rt; stacks.switch(1, 4, 24) == interrupted);
    assert!(rt; stacks.drop_running() == StackState::Yielded { sp: 4, pc: 24 });
    stacks.reset(2);
    assert!(rt; stacks.state(1) == Some(StackState::Empty));
    Ok(())
}
