// The lines of a function.
ghost use Rattle.std.specs.Prelude.{◌≡◌, length, IfOk, IfSome};
ghost use Rattle.std.specs.Option.{unwrap_or};
ghost use Rattle.tal_names.specs.Declarations.{names_shown};
ghost use Rattle.tal_rows.specs.Lines.{is_twice};
ghost use Rattle.asm_faults.specs.Answers.{AnswersBy, at_line};
ghost use Rattle.tal_code.specs.Holes.{PlacesWithin};
ghost use Rattle.tal_code.specs.Functions.{UnitCodeView, line_code, inst_line, begins_with_inst, is_placed, slot_types, block_line, has_code, with_lines, function_code};

use crate::holes::{HoledCode, holed_code};
use crate::labels::Labels;
use crate::unit_code::UnitCode;
use asm_faults::{AsmAnswer, AsmFault};
use code_words::Mnemonic;
use no_memory::NoMemory;
use std::alloc::Global;
use tal_names::{ModuleNames, NameSet};
use tal_operands::{Instruction, instruction_of};
use tal_rows::{label_line, slots_given};
use tal_syntax::{Arg, Form, Name, RegType, TextLine, TypeText, TypeTextList};
use tal_types::Ty;

/// Whether an instruction is among a function's lines: those of labels and instructions, up to the first other one.
#[tactic(auto, unfolding(crate::specs::Functions::has_code))]
pub fn has_code(lines: &[TextLine]) -> bool
    ensures { result ≡ has_code lines.now }
{
    let mut left = lines;
    'lines: while let [line, behind @ ..] = left {
        match &line.form {
            Form::Inst { .. } => return true,
            Form::Label { .. } => {}
            _ => return false,
        }
        left = behind;
    }
    false
}

// Whether the first of the lines is an instruction.
#[tactic(auto, unfolding(crate::specs::Functions::begins_with_inst))]
fn begins_with_inst(lines: &[TextLine]) -> bool
    ensures { result ≡ begins_with_inst lines.now }
{
    match lines {
        [] => false,
        [line, ..] => match &line.form {
            Form::Inst { .. } => true,
            _ => false,
        },
    }
}

// Whether a name has the number of a label before this one.
#[tactic(auto, unfolding(tal_rows::specs::Lines::is_twice))]
fn is_twice(names: &NameSet, name: &Name, labels: u32) -> bool
    ensures { result ≡ is_twice names.now name.now labels }
{
    match names.number(name.bytes()) {
        Some(number) => number < labels,
        None => false,
    }
}

// The types of slots.
fn slot_types(alloc: Global, names: &ModuleNames, slots: &[TypeText]) -> Result<Vec<Ty>, NoMemory>
    ensures { IfOk result (λ types. types.items ≡ slot_types (names_shown names.now) slots.now) }
{
    let mut types = Vec::new(alloc);
    for slot in slots {
        types.push(names.type_of(slot).unwrap_or(Ty::Junk))?;
    }
    Ok(types)
}

// The bytes of an instruction with so many operands; none where it has more than three.
#[tactic(auto, unfolding(crate::specs::Functions::line_code))]
fn line_code(instruction: &Instruction, operands: usize) -> Option<HoledCode>
    ensures code { result ≡ line_code instruction.now operands }
    ensures within { IfSome result PlacesWithin }
{
    if operands <= 3 {
        holed_code(instruction)
    } else {
        None
    }
}

impl UnitCode {
    // The code with an instruction, whose label is so far away, if it is known.
    #[tactic(auto, unfolding(crate::specs::Functions::inst_line))]
    fn with_inst_line(
        self,
        names: &ModuleNames,
        number: u32,
        mnemonic: Mnemonic,
        args: &[Arg],
        distance: Option<i32>,
    ) -> Result<UnitCode, AsmAnswer>
        ensures { AnswersBy result (at_line number (inst_line (names_shown names.now) self mnemonic args.now distance)) }
    {
        let instruction = instruction_of(names, mnemonic, args, distance.unwrap_or(0));
        let holed = line_code(&instruction, args.len());
        let has_room = self.has_room(instruction.sense, &holed);
        match instruction.fault(holed.is_some(), distance.is_some(), has_room) {
            Some(code) => Err(AsmAnswer::Fault(AsmFault { line: number, code })),
            None => match holed {
                Some(holed) => Ok(self.with_inst(instruction.sense, &holed)?),
                None => Ok(self),
            },
        }
    }

    // The code with a label's block.
    #[tactic(auto, unfolding(crate::specs::Functions::block_line))]
    fn with_label_line(
        self,
        alloc: Global,
        names: &ModuleNames,
        number: u32,
        regs: &[RegType],
        slots: &Option<TypeTextList>,
        is_placed: bool,
    ) -> Result<UnitCode, AsmAnswer>
        ensures { AnswersBy result (at_line number (block_line (names_shown names.now) self regs.now slots.now is_placed)) }
    {
        match label_line(names, regs, slots, is_placed, self.block_count()) {
            Err(code) => Err(AsmAnswer::Fault(AsmFault { line: number, code })),
            Ok(types) => {
                let slots = slot_types(alloc, names, slots_given(slots))?;
                Ok(self.with_block(types, slots)?)
            }
        }
    }

    // Whether a label stands where one may. `start` is the offset of the function's first instruction, and `blocks` is how many
    // blocks there are before the function.
    #[tactic(auto, unfolding(crate::specs::Functions::is_placed))]
    fn is_placed(
        &self,
        labels: &Labels,
        start: u32,
        blocks: u32,
        name: &Name,
        behind: &[TextLine],
    ) -> bool
        ensures { (before : UnitCodeView) → start ≡ length before.code → blocks ≡ length before.blocks
            → result ≡ is_placed labels.now before self.now name.now behind.now }
    {
        let given = self.block_count().saturating_sub(blocks);
        start < self.len() && begins_with_inst(behind) && !is_twice(labels.names(), name, given)
    }

    // The code with a function's lines, where these are its labels.
    #[tactic(auto, unfolding(crate::specs::Functions::with_lines, crate::specs::Functions::code_line))]
    fn with_lines(
        self,
        alloc: Global,
        names: &ModuleNames,
        labels: &Labels,
        lines: &[TextLine],
    ) -> Result<UnitCode, AsmAnswer>
        ensures { AnswersBy result (with_lines (names_shown names.now) labels.now self self lines.now) }
    {
        let start = self.len();
        let blocks = self.block_count();
        let mut made = self;
        let mut left = lines;
        'lines: while let [line, behind @ ..] = left {
            match &line.form {
                Form::Label { name, regs, slots } => {
                    let is_placed = made.is_placed(labels, start, blocks, name, behind);
                    made = made.with_label_line(
                        alloc,
                        names,
                        line.number,
                        regs.items(),
                        slots,
                        is_placed,
                    )?;
                }
                Form::Inst { mnemonic, args } => {
                    let distance = labels.distance_at(names, made.len(), *mnemonic, args.items());
                    made = made.with_inst_line(
                        names,
                        line.number,
                        *mnemonic,
                        args.items(),
                        distance,
                    )?;
                }
                _ => return Ok(made),
            }
            left = behind;
        }
        Ok(made)
    }

    /// The code of a unit with one function more, of which these are the lines behind its first: labels and instructions, up to
    /// the first other line. Or the first line with a fault.
    #[tactic(auto, unfolding(crate::specs::Functions::function_code))]
    pub fn with_function(
        self,
        alloc: Global,
        names: &ModuleNames,
        lines: &[TextLine],
    ) -> Result<UnitCode, AsmAnswer>
        ensures { AnswersBy result (function_code (names_shown names.now) self lines.now) }
    {
        let labels = Labels::of(alloc, names, self.len(), lines)?;
        self.with_lines(alloc, names, &labels, lines)
    }
}
