// The numbers in an instruction fit their types: what the types say, as a fact for the proofs.
ghost use Rattle.ia32_code.specs.Ranges.{InstInRange};

use crate::instruction::Inst;

/// The numbers in an instruction fit their types.
pub fn in_range(inst: Inst)
    ensures { InstInRange inst }
{}
