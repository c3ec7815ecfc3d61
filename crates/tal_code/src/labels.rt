// Where the labels of a function lie.
ghost use Rattle.std.specs.Prelude.{◌≡◌, ◌≤◌, ◌+◌, length, IfOk, IfSome, OnOk};
ghost use Rattle.std.specs.Option.{option_copied};
ghost use Rattle.tal_names.specs.Declarations.{names_shown};
ghost use Rattle.tal_image.specs.Conditions.{most_code};
ghost use Rattle.tal_code.specs.Labels.{no_labels, farthest, offset_behind, inst_length, with_label, with_labels, labels_of, label_offset, first_target, label_of, distance_at};

use crate::holes::words_length;
use code_words::Mnemonic;
use no_memory::NoMemory;
use std::alloc::Global;
use std::marker::Model;
use tal_names::{ModuleNames, NameSet};
use tal_operands::instruction_of;
use tal_syntax::{Arg, Form, Name, TextLine};

/// The most bytes of a unit's code.
pub const MOST_CODE: u32 = 1_048_576;

/// The labels of a function, with their offsets in the unit's code.
#[derive(Drop)]
pub struct Labels {
    names: NameSet,
    offsets: Vec<u32>,
}

impl Model for Labels {
    ghost use Rattle.std.specs.Prelude.{◌≤◌, All};
    ghost use Rattle.tal_code.specs.Labels.{LabelsView, farthest};

    ghost Value = { LabelsView };

    ghost view = { λ labels. record { names = labels.names; offsets = labels.offsets.items } };

    ghost invariant = { λ labels. All (λ offset. offset ≤ farthest) labels.offsets.items };
}

// The offset behind so many bytes more, which stands still behind the most code.
#[tactic(auto, unfolding(crate::specs::Labels::offset_behind))]
fn offset_behind(offset: u32, bytes: u8) -> u32
    requires { offset ≤ farthest }
    ensures value { result ≡ offset_behind offset bytes }
    ensures few { result ≤ farthest }
{
    if MOST_CODE < offset {
        offset
    } else {
        offset + u32::from(bytes)
    }
}

// How many bytes an instruction has.
#[tactic(auto, unfolding(crate::specs::Labels::inst_length))]
fn inst_length(names: &ModuleNames, mnemonic: Mnemonic, args: &[Arg]) -> u8
    ensures { result ≡ inst_length (names_shown names.now) mnemonic args.now }
{
    words_length(instruction_of(names, mnemonic, args, 0).words)
}

// The first name among operands that is a target.
#[tactic(auto, using(crate::proofs::Steps::here), unfolding(crate::specs::Labels::first_target))]
fn first_target(args: &[Arg]) -> Option<&Name>
    ensures { option_copied result ≡ first_target args.now }
{
    for arg in args {
        if let Arg::Target(name) = arg {
            return Some(name);
        }
    }
    None
}

// The label to which an instruction goes, if it goes to one.
#[tactic(auto, unfolding(crate::specs::Labels::label_of, tal_operands::specs::Instructions::is_call))]
fn label_of(mnemonic: Mnemonic, args: &[Arg]) -> Option<&Name>
    ensures { option_copied result ≡ label_of mnemonic args.now }
{
    match mnemonic {
        Mnemonic::Call => None,
        _ => first_target(args),
    }
}

impl Labels {
    // No labels.
    fn new(alloc: Global) -> Labels
        ensures { result ≡ no_labels }
    {
        Labels {
            names: NameSet::new(alloc),
            offsets: Vec::new(alloc),
        }
    }

    // A label more. A name that is given again stays where it was.
    #[tactic(auto, unfolding(crate::specs::Labels::with_label))]
    fn add(&mut self, alloc: Global, name: &Name, offset: u32) -> Result<(), NoMemory>
        requires { offset ≤ farthest }
        ensures { OnOk result (self.new ≡ with_label self.old name.now offset) }
    {
        if self.names.add(alloc, name.bytes())? {
            self.offsets.push(offset)?;
        }
        Ok(())
    }

    /// The labels of a function's lines, where its first instruction is at an offset.
    #[tactic(auto, unfolding(crate::specs::Labels::with_labels))]
    pub fn of(
        alloc: Global,
        names: &ModuleNames,
        start: u32,
        lines: &[TextLine],
    ) -> Result<Labels, NoMemory>
        requires { start ≤ most_code }
        ensures { IfOk result (λ labels. labels ≡ labels_of (names_shown names.now) start lines.now) }
    {
        let mut labels = Labels::new(alloc);
        let mut offset = start;
        let mut left = lines;
        'lines: while let [line, behind @ ..] = left {
            match &line.form {
                Form::Label { name, .. } => labels.add(alloc, name, offset)?,
                Form::Inst { mnemonic, args } => {
                    offset = offset_behind(offset, inst_length(names, *mnemonic, args.items()));
                }
                _ => return Ok(labels),
            }
            left = behind;
        }
        Ok(labels)
    }

    /// The names of the labels, in the order of the lines.
    pub fn names(&self) -> &NameSet
        ensures { result.now ≡ self.now.names }
    {
        &self.names
    }

    // Where the label with a name is.
    #[tactic(auto, unfolding(crate::specs::Labels::label_offset))]
    fn offset(&self, name: &[u8]) -> Option<u32>
        ensures offset { result ≡ label_offset self.now name.now }
        ensures few { IfSome result (λ offset. offset ≤ farthest) }
    {
        let number = self.names.number(name)?;
        let offset = self.offsets.get(number as usize)?;
        Some(*offset)
    }

    /// How far the label of an instruction at an offset is from the next instruction; 0 where it goes to none, and none where
    /// its label is not known.
    #[tactic(auto, unfolding(crate::specs::Labels::distance_to))]
    pub fn distance_at(
        &self,
        names: &ModuleNames,
        offset: u32,
        mnemonic: Mnemonic,
        args: &[Arg],
    ) -> Option<i32>
        requires { offset ≤ most_code }
        ensures { result ≡ distance_at (names_shown names.now) self.now offset mnemonic args.now }
    {
        let Some(name) = label_of(mnemonic, args) else {
            return Some(0);
        };
        let next = offset_behind(offset, inst_length(names, mnemonic, args));
        let target = self.offset(name.bytes())?;
        Some(target as i32 - next as i32)
    }
}
