// The lines of a module that make rows, a function each.
ghost use Rattle.std.specs.Prelude.{◌≡◌, ◌<◌, true, length, IfOk, OnOk};
ghost use Rattle.asm_faults.specs.Answers.{AnswersBy, at_line};
ghost use Rattle.tal_names.specs.Declarations.{names_shown};
ghost use Rattle.tal_rows.specs.Lines.{sig_line, kind_line, static_line, data_line, function_line, class_line, entry_line};
ghost use Rattle.tal_classes.specs.Members.{class_row};
ghost use Rattle.tal_tables.specs.Kept.{IsMade};
ghost use Rattle.tal_tables.specs.Rows.{heap_line, stacks_line, has_entry, array_numbers, name_number, make, then_make, and_sig, and_kind, and_static, and_array, and_class, and_function, and_entry, take_row};

use crate::tables::ModuleTables;
use crate::trials::{array_numbers, has_entry, heap_line, name_number, stacks_line};
use asm_faults::{AsmAnswer, AsmFault};
use no_memory::NoMemory;
use std::alloc::Global;
use tal_classes::class_row;
use tal_image::NumberList as Words;
use tal_names::{ModuleNames, NameSet};
use tal_rows::{
    class_line, data_line, entry_line, function_line, kind_line, sig_line, static_line,
};
use tal_syntax::{Form, Name, NumberList, RegType, TextLine, TypeText};
use unit_files::{
    UnitArray, UnitClass, UnitData, UnitEntry, UnitFun, UnitKind, UnitSig, UnitStatic,
};

// The fault of a line.
fn fault_at(line: u32, code: u8) -> AsmAnswer
    ensures { result ≡ AsmAnswer.Fault (record { line = line; code = code }) }
{
    AsmAnswer::Fault(AsmFault { line, code })
}

impl ModuleTables {
    // Takes the line of the heap.
    fn set_heap(&mut self, line: u32, number: i64) -> Result<(), AsmAnswer>
        ensures { IsMade result (make (λ words. record self.old { heap_words = words }) (at_line line (heap_line self.old.heap_words number))) self.new }
    {
        match heap_line(self.heap_words, number) {
            Ok(words) => {
                self.heap_words = words;
                Ok(())
            }
            Err(code) => Err(fault_at(line, code)),
        }
    }

    // Takes the line of the stacks.
    fn set_stacks(&mut self, line: u32, number: i64) -> Result<(), AsmAnswer>
        ensures { IsMade result (make (λ stacks. record self.old { stacks = stacks }) (at_line line (stacks_line self.old.stacks number))) self.new }
    {
        match stacks_line(self.stacks, number) {
            Ok(stacks) => {
                self.stacks = stacks;
                Ok(())
            }
            Err(code) => Err(fault_at(line, code)),
        }
    }

    // Takes the line of an entry.
    #[tactic(auto, using(crate::proofs::Limits::stack_room))]
    fn add_entry(
        &mut self,
        names: &ModuleNames,
        line: u32,
        stack: i64,
        function: &Name,
    ) -> Result<(), AsmAnswer>
        ensures { IsMade result (make (and_entry self.old) (at_line line (entry_line (names_shown names.now) stack function.now (has_entry self.old.entries stack)))) self.new }
    {
        let is_given = has_entry(&self.entries, stack);
        match entry_line(names, stack, function, is_given) {
            Ok(entry) => {
                self.entries.push(UnitEntry {
                    stack: entry.stack as u32,
                    function: entry.function,
                })?;
                Ok(())
            }
            Err(code) => Err(fault_at(line, code)),
        }
    }

    // Takes the line of a signature.
    fn add_sig(
        &mut self,
        names: &ModuleNames,
        unit_names: &NameSet,
        line: u32,
        ext: bool,
        name: &Name,
        params: &[RegType],
        answer: &TypeText,
    ) -> Result<(), AsmAnswer>
        ensures { IsMade result (make (and_sig self.old (name_number unit_names.now name.now) ext) (at_line line (sig_line (names_shown names.now) name.now params.now answer.now (length self.old.sigs)))) self.new }
    {
        let rows = self.sigs.len() as u32;
        match sig_line(names, name, params, answer, rows) {
            Ok(sig) => {
                self.sigs.push(UnitSig {
                    name: name_number(unit_names, name),
                    ext,
                    sig,
                })?;
                Ok(())
            }
            Err(code) => Err(fault_at(line, code)),
        }
    }

    // Takes the line of an array kind.
    fn add_kind(
        &mut self,
        names: &ModuleNames,
        unit_names: &NameSet,
        line: u32,
        ext: bool,
        name: &Name,
        element: &TypeText,
    ) -> Result<(), AsmAnswer>
        ensures { IsMade result (make (and_kind self.old (name_number unit_names.now name.now) ext) (at_line line (kind_line (names_shown names.now) name.now element.now (length self.old.kinds)))) self.new }
    {
        let rows = self.kinds.len() as u32;
        match kind_line(names, name, element, rows) {
            Ok(held) => {
                self.kinds.push(UnitKind {
                    name: name_number(unit_names, name),
                    ext,
                    element: held,
                })?;
                Ok(())
            }
            Err(code) => Err(fault_at(line, code)),
        }
    }

    // Takes the line of a static.
    fn add_static(
        &mut self,
        names: &ModuleNames,
        unit_names: &NameSet,
        line: u32,
        ext: bool,
        name: &Name,
        ty: &TypeText,
    ) -> Result<(), AsmAnswer>
        ensures { IsMade result (make (and_static self.old (name_number unit_names.now name.now) ext) (at_line line (static_line (names_shown names.now) name.now ty.now (length self.old.statics) self.old.words))) self.new }
    {
        let rows = self.statics.len() as u32;
        match static_line(names, name, ty, rows, self.words) {
            Ok(held) => {
                self.statics.push(UnitStatic {
                    name: name_number(unit_names, name),
                    ext,
                    ty: held,
                })?;
                self.words += 1;
                Ok(())
            }
            Err(code) => Err(fault_at(line, code)),
        }
    }

    // Takes the line of a data array.
    #[tactic(auto, using(crate::proofs::Limits::data_room))]
    fn add_array(
        &mut self,
        alloc: Global,
        names: &ModuleNames,
        unit_names: &NameSet,
        line: u32,
        ext: bool,
        name: &Name,
        kind: &Name,
        size: i64,
        numbers: &Option<NumberList>,
    ) -> Result<(), AsmAnswer>
        ensures { IsMade result (make (λ l. and_array self.old (name_number unit_names.now name.now) ext l (array_numbers (names_shown names.now) ext l.kind l.length numbers.now)) (at_line line (data_line (names_shown names.now) name.now kind.now size numbers.now (length self.old.arrays) self.old.words))) self.new }
    {
        let rows = self.arrays.len() as u32;
        match data_line(names, name, kind, size, numbers, rows, self.words) {
            Ok(row) => {
                let found = array_numbers(alloc, names, ext, row.kind, row.length, numbers)?;
                self.arrays.push(UnitArray {
                    row: UnitData {
                        name: name_number(unit_names, name),
                        ext,
                        kind: row.kind,
                        length: row.length as u32,
                    },
                    numbers: Words::of(found),
                })?;
                self.words += 2 + row.length as u32;
                Ok(())
            }
            Err(code) => Err(fault_at(line, code)),
        }
    }

    // Takes all lines of a class.
    fn add_class(
        &mut self,
        alloc: Global,
        names: &ModuleNames,
        unit_names: &NameSet,
        line: u32,
        ext: bool,
        name: &Name,
        parent: &Option<Name>,
        behind: &[TextLine],
    ) -> Result<(), AsmAnswer>
        ensures { IsMade result (then_make (at_line line (class_line (names_shown names.now) name.now parent.now (length self.old.classes))) (λ above. make (and_class self.old (name_number unit_names.now name.now) ext) (class_row (names_shown names.now) self.old.classes above behind.now))) self.new }
    {
        let rows = self.classes.len() as u32;
        match class_line(names, name, parent, rows) {
            Ok(above) => {
                let row = class_row(alloc, names, &self.classes, above, behind)?;
                self.classes.push(UnitClass {
                    name: name_number(unit_names, name),
                    ext,
                    row,
                })?;
                Ok(())
            }
            Err(code) => Err(fault_at(line, code)),
        }
    }

    /// The signature of a function behind those so far, or its fault at a line.
    #[tactic(auto, using(crate::proofs::Limits::function_room))]
    pub fn function_line(
        &self,
        names: &ModuleNames,
        line: u32,
        name: &Name,
        sig: &Name,
        has_code: bool,
    ) -> Result<u32, AsmAnswer>
        ensures sig { AnswersBy result (at_line line (function_line (names_shown names.now) name.now sig.now has_code (length self.now.functions))) }
        ensures room { IfOk result (λ _. length self.now.functions < 16384) }
    {
        match function_line(names, name, sig, has_code, self.functions()) {
            Ok(found) => Ok(found),
            Err(code) => Err(fault_at(line, code)),
        }
    }

    /// Adds a function, of whose code so many bytes stand in the unit.
    pub fn add_function(
        &mut self,
        unit_names: &NameSet,
        name: &Name,
        ext: bool,
        size: u32,
        sig: u32,
    ) -> Result<(), NoMemory>
        requires { length self.old.functions < 16384 }
        ensures { OnOk result (self.new ≡ and_function self.old (name_number unit_names.now name.now) ext size sig) }
    {
        self.functions.push(UnitFun {
            name: name_number(unit_names, name),
            ext,
            length: size,
            sig,
        })?;
        Ok(())
    }

    // Takes the line of an extern function.
    fn add_extern(
        &mut self,
        names: &ModuleNames,
        unit_names: &NameSet,
        line: u32,
        name: &Name,
        sig: &Name,
    ) -> Result<(), AsmAnswer>
        ensures { IsMade result (make (and_function self.old (name_number unit_names.now name.now) true 0) (at_line line (function_line (names_shown names.now) name.now sig.now true (length self.old.functions)))) self.new }
    {
        let sig = self.function_line(names, line, name, sig, true)?;
        self.add_function(unit_names, name, true, 0, sig)?;
        Ok(())
    }

    /// Takes a line before those behind it, with the names that the module declares and those of its unit: its rows are added,
    /// or it has the fault, or there is no memory. A function that is not extern adds nothing here.
    #[tactic(auto, unfolding(crate::specs::Rows::take_row))]
    pub fn take_row(
        &mut self,
        alloc: Global,
        names: &ModuleNames,
        unit_names: &NameSet,
        line: &TextLine,
        behind: &[TextLine],
    ) -> Result<(), AsmAnswer>
        ensures { IsMade result (take_row (names_shown names.now) unit_names.now self.old line.now.number line.now.form behind.now) self.new }
    {
        let number = line.number;
        match &line.form {
            Form::Heap(words) => self.set_heap(number, *words),
            Form::Stacks(count) => self.set_stacks(number, *count),
            Form::Entry { stack, func } => self.add_entry(names, number, *stack, func),
            Form::Sig {
                ext,
                name,
                params,
                result,
            } => {
                self.add_sig(
                    names,
                    unit_names,
                    number,
                    *ext,
                    name,
                    params.items(),
                    result,
                )
            }
            Form::Kind { ext, name, element } => {
                self.add_kind(names, unit_names, number, *ext, name, element)
            }
            Form::Static { ext, name, ty } => {
                self.add_static(names, unit_names, number, *ext, name, ty)
            }
            Form::DataArray {
                ext,
                name,
                kind,
                length,
                numbers,
            } => {
                self.add_array(
                    alloc, names, unit_names, number, *ext, name, kind, *length, numbers,
                )
            }
            Form::Class { ext, name, parent } => {
                self.add_class(alloc, names, unit_names, number, *ext, name, parent, behind)
            }
            Form::Func {
                ext: true,
                name,
                sig,
            } => self.add_extern(names, unit_names, number, name, sig),
            _ => Ok(()),
        }
    }
}
