// An instruction without a spelling, and a room that is full. What bytes spell is told by cases of `step_cases`, and by the
// listing of a row of each kind among those of `verve_cases`.
use ia32_code::*;
use std::test::*;

// The word at 0x300000, and the one at ESP + 8.
const STATIC: Operand = Operand::M(Mem {
    base: None,
    index: None,
    scale: 0,
    disp: 0x300000,
});

const SLOT: Operand = Operand::M(Mem {
    base: Some(Reg::Esp),
    index: None,
    scale: 0,
    disp: 8,
});

#[test]
fn refused_instructions(rt: HostRuntime) {
    let mut room = CodeBuf::new();
    let copy = Inst::Mov {
        dst: STATIC,
        src: SLOT,
    };
    assert_eq!(rt; encode(&copy, &mut room), Err(CodeFault::NoSpelling));
    assert_eq!(rt; len_of(&copy), 0);
    for _ in 0..16u32 {
        assert_eq!(rt; encode(&Inst::Nop, &mut room), Ok(()));
    }
    assert_eq!(rt; encode(&Inst::Nop, &mut room), Err(CodeFault::Full));
    assert_eq!(rt; room.bytes(), [0x90u8; 16].as_slice());
}
