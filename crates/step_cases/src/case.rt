// A case: what its rows share.
use std::alloc::Global;

/// The names of the registers, by their numbers.
pub const REGISTERS: [&str; 8] = ["eax", "ecx", "edx", "ebx", "esp", "ebp", "esi", "edi"];

/// Instructions that are each run on each row.
#[derive(Drop)]
pub struct Case {
    /// The bytes of each instruction.
    pub code: Vec<Vec<u8>>,
    /// Which registers are shown whether they change or not.
    pub shown: [bool; 8],
}

impl Case {
    /// A case of no instructions.
    pub fn new(alloc: Global) -> Case {
        Case {
            code: Vec::new(alloc),
            shown: [false; 8],
        }
    }

    /// Shows the register of this name. False where there is none.
    pub fn show(&mut self, name: &str) -> bool {
        for number in 0..8usize {
            if REGISTERS[number] == name {
                self.shown[number] = true;
                return true;
            }
        }
        false
    }
}
