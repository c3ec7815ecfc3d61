// The saved registers that are roots.
ghost use Rattle.std.specs.Prelude.{◌≡◌, ◌≢◌, ◌<◌, ◌↔◌, IsTrue, []};
ghost use Rattle.std.specs.Int.{bit_at};
ghost use Rattle.frame_tables.specs.FrameWalks.{GivesNext};
ghost use Rattle.root_words.specs.Listing.{saved_references};

use std::marker::Model;

/// The number of ESP, which no type makes a root.
const ESP: u8 = 4;

/// Whether the bit of this register is set, and it is not ESP.
fn is_root(bits: u8, register: u8) -> bool
    requires { register < 8 }
    ensures { IsTrue result ↔ ((bit_at bits register ≡ 1) × (register ≢ 4)) }
{
    (bits >> register) & 1 == 1 && register != ESP
}

/// The saved registers that may refer and are still to come.
#[derive(Drop)]
pub struct SavedRegisters {
    regs: [u32; 8],
    bits: u8,
    register: u8,
}

impl Model for SavedRegisters {
    ghost use Rattle.std.specs.Prelude.{ℕ, List, drop, ◌≤◌};
    ghost use Rattle.root_words.specs.Listing.{saved_references};

    ghost Value = { List ℕ };

    ghost view = { λ s. saved_references s.bits s.register (drop s.register s.regs) };

    ghost invariant = { λ s. s.register ≤ 8 };
}

impl SavedRegisters {
    /// None.
    pub fn none() -> SavedRegisters
        ensures { result ≡ [] }
    {
        SavedRegisters {
            regs: [0; 8],
            bits: 0,
            register: 8,
        }
    }

    /// Those of these registers whose bit is set.
    pub fn of(regs: [u32; 8], bits: u8) -> SavedRegisters
        ensures { result ≡ saved_references bits 0 regs }
    {
        SavedRegisters {
            regs,
            bits,
            register: 0,
        }
    }

    /// The next one. None exactly where all were given.
    pub fn next(&mut self) -> Option<u32>
        ensures { GivesNext result self.old self.new }
    {
        while self.register < 8 {
            let register = self.register;
            self.register += 1;
            if is_root(self.bits, register) {
                return Some(self.regs[register as usize]);
            }
        }
        None
    }
}
