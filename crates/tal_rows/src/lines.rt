// The lines of declarations, a function each. The codes are those of the assembler's faults: 11 a name that is not declared,
// 12 one that is declared twice, 14 a class that breaks the rules of classes, 15 a function without an instruction, 16 a count
// above its limit, 17 a number that does not fit, 18 a type that is not allowed.
ghost use Rattle.std.specs.Prelude.{◌≡◌, ◌<◌, ◌^◌, IfSome};
ghost use Rattle.tal_names.specs.Declarations.{names_shown};
ghost use Rattle.tal_rows.specs.Lines.{is_twice, field_type, natural, sig_line, kind_line, static_line, is_too_long, numbers_fit, data_line, function_line, parent_row_fits, class_line, entry_line, label_line};

use crate::registers::{all_known, repeats, slots_given, slots_known, types_in};
use object_layout::FieldTy;
use tal_names::{ModuleNames, NameSet};
use tal_syntax::{Name, NumberList, RegType, TypeText, TypeTextList};
use tal_types::{Sig, Ty};

/// A data array: the number of its kind, and how many elements it has, below 65535.
#[derive(Clone, Copy, Debug, PartialEq, Eq, Drop)]
pub struct DataLine {
    pub kind: u32,
    pub length: u64,
}

/// An entry: a stack, 0 to 63, and the number of the function at which it begins.
#[derive(Clone, Copy, Debug, PartialEq, Eq, Drop)]
pub struct EntryLine {
    pub stack: u64,
    pub function: u32,
}

// Whether a name has the number of a row before this one.
#[tactic(auto, unfolding(crate::specs::Lines::is_twice))]
fn is_twice(names: &NameSet, name: &Name, rows: u32) -> bool
    ensures { result ≡ is_twice names.now name.now rows }
{
    match names.number(name.bytes()) {
        Some(number) => number < rows,
        None => false,
    }
}

/// What a field, a static or an element may hold: a number, or a reference that may be null.
#[tactic(auto, unfolding(crate::specs::Lines::field_type))]
pub fn field_type(ty: Ty) -> Option<FieldTy>
    ensures { result ≡ field_type ty }
{
    match ty {
        Ty::Num => Some(FieldTy::Num),
        Ty::Ref(class) => Some(FieldTy::Ref(class)),
        Ty::ArrRef(kind) => Some(FieldTy::ArrRef(kind)),
        Ty::Fun(sig) => Some(FieldTy::Fun(sig)),
        _ => None,
    }
}

// A number that is not negative.
#[tactic(auto, unfolding(crate::specs::Lines::natural))]
fn natural(number: i64) -> Option<u64>
    ensures value { result ≡ natural number }
    ensures few { IfSome result (λ n. n < 2 ^ 63) }
{
    if number < 0 {
        None
    } else {
        Some(number as u64)
    }
}

/// A signature behind so many others, or code 11, 12 or 16: 4096 signatures are the most.
#[tactic(auto, unfolding(crate::specs::Lines::sig_line))]
pub fn sig_line(
    names: &ModuleNames,
    name: &Name,
    params: &[RegType],
    result_type: &TypeText,
    rows: u32,
) -> Result<Sig, u8>
    ensures { result ≡ sig_line (names_shown names.now) name.now params.now result_type.now rows }
{
    if !all_known(names, params) {
        return Err(11);
    }
    let Some(found) = names.type_of(result_type) else {
        return Err(11);
    };
    if repeats(params) {
        return Err(12);
    }
    if is_twice(&names.sigs, name, rows) {
        return Err(12);
    }
    if rows >= 4096 {
        return Err(16);
    }
    Ok(Sig {
        params: types_in(names, params),
        result: found,
    })
}

/// What the elements of a kind behind so many others hold, or code 11, 12, 16 or 18: 256 kinds are the most.
#[tactic(auto, unfolding(crate::specs::Lines::kind_line))]
pub fn kind_line(
    names: &ModuleNames,
    name: &Name,
    element: &TypeText,
    rows: u32,
) -> Result<FieldTy, u8>
    ensures { result ≡ kind_line (names_shown names.now) name.now element.now rows }
{
    let Some(found) = names.type_of(element) else {
        return Err(11);
    };
    if is_twice(&names.kinds, name, rows) {
        return Err(12);
    }
    if rows >= 256 {
        return Err(16);
    }
    let Some(held) = field_type(found) else {
        return Err(18);
    };
    Ok(held)
}

/// What a static behind so many others holds, or code 11, 12, 16 or 18. `words` is how many words the statics and the data
/// arrays so far take: 65536 are the most.
#[tactic(auto, unfolding(crate::specs::Lines::static_line))]
pub fn static_line(
    names: &ModuleNames,
    name: &Name,
    ty: &TypeText,
    rows: u32,
    words: u32,
) -> Result<FieldTy, u8>
    ensures { result ≡ static_line (names_shown names.now) name.now ty.now rows words }
{
    let Some(found) = names.type_of(ty) else {
        return Err(11);
    };
    if is_twice(&names.statics, name, rows) {
        return Err(12);
    }
    if words >= 65536 {
        return Err(16);
    }
    let Some(held) = field_type(found) else {
        return Err(18);
    };
    Ok(held)
}

// Whether a data array does not fit behind so many words.
#[tactic(auto, unfolding(crate::specs::Lines::is_too_long))]
fn is_too_long(size: i64, words: u32) -> bool
    ensures { result ≡ is_too_long size words }
{
    match natural(size) {
        Some(length) => u64::from(words) + 2 + length > 65536,
        None => false,
    }
}

// Whether there are as many numbers as elements, and the elements are numbers; or no numbers are given.
#[tactic(auto, unfolding(crate::specs::Lines::numbers_fit))]
fn numbers_fit(names: &ModuleNames, kind: u32, length: u64, numbers: &Option<NumberList>) -> bool
    ensures { result ≡ numbers_fit (names_shown names.now) kind length numbers.now }
{
    match numbers {
        None => true,
        Some(list) => {
            let counts = match names.number_kinds.get(kind as usize) {
                Some(is_number) => *is_number,
                None => false,
            };
            counts && list.items().len() as u64 == length
        }
    }
}

/// The kind and the length of a data array behind so many others, or code 11, 12, 16 or 17. `words` is how many words the
/// statics and the data arrays so far take; this one takes two more than its length, and 65536 are the most.
#[tactic(auto, unfolding(crate::specs::Lines::data_line))]
pub fn data_line(
    names: &ModuleNames,
    name: &Name,
    kind: &Name,
    size: i64,
    numbers: &Option<NumberList>,
    rows: u32,
    words: u32,
) -> Result<DataLine, u8>
    ensures { result ≡ data_line (names_shown names.now) name.now kind.now size numbers.now rows words }
{
    let Some(kind) = names.kinds.number(kind.bytes()) else {
        return Err(11);
    };
    if is_twice(&names.arrays, name, rows) {
        return Err(12);
    }
    if is_too_long(size, words) {
        return Err(16);
    }
    let Some(length) = natural(size) else {
        return Err(17);
    };
    if !numbers_fit(names, kind, length, numbers) {
        return Err(17);
    }
    Ok(DataLine { kind, length })
}

/// The signature of a function behind so many others, or code 11, 12, 15 or 16: 16384 functions are the most. `has_code` is
/// whether the function is extern or has an instruction.
#[tactic(auto, unfolding(crate::specs::Lines::function_line))]
pub fn function_line(
    names: &ModuleNames,
    name: &Name,
    sig: &Name,
    has_code: bool,
    rows: u32,
) -> Result<u32, u8>
    ensures { result ≡ function_line (names_shown names.now) name.now sig.now has_code rows }
{
    let Some(sig) = names.sigs.number(sig.bytes()) else {
        return Err(11);
    };
    if is_twice(&names.functions, name, rows) {
        return Err(12);
    }
    if !has_code {
        return Err(15);
    }
    if rows >= 16384 {
        return Err(16);
    }
    Ok(sig)
}

/// The class below which a class behind so many others is, or code 11, 12, 14 or 16: it is an earlier one, with six classes
/// above it at most, and 1024 classes are the most.
#[tactic(auto, unfolding(crate::specs::Lines::class_line, crate::specs::Lines::parent_row_fits))]
pub fn class_line(
    names: &ModuleNames,
    name: &Name,
    parent: &Option<Name>,
    rows: u32,
) -> Result<Option<u32>, u8>
    ensures { result ≡ class_line (names_shown names.now) name.now parent.now rows }
{
    match parent {
        None => {
            if is_twice(&names.classes, name, rows) {
                return Err(12);
            }
            if rows >= 1024 {
                return Err(16);
            }
            Ok(None)
        }
        Some(above) => {
            let Some(number) = names.classes.number(above.bytes()) else {
                return Err(11);
            };
            if is_twice(&names.classes, name, rows) {
                return Err(12);
            }
            if !(number < rows && names.depth(number) < 7) {
                return Err(14);
            }
            if rows >= 1024 {
                return Err(16);
            }
            Ok(Some(number))
        }
    }
}

/// The stack and the function of an entry, or code 11, 12 or 17: the stacks are 0 to 63. `is_given` is whether the stack has an
/// entry already.
#[tactic(auto, unfolding(crate::specs::Lines::entry_line))]
pub fn entry_line(
    names: &ModuleNames,
    stack: i64,
    function: &Name,
    is_given: bool,
) -> Result<EntryLine, u8>
    ensures { result ≡ entry_line (names_shown names.now) stack function.now is_given }
{
    let Some(function) = names.functions.number(function.bytes()) else {
        return Err(11);
    };
    if is_given {
        return Err(12);
    }
    let Some(stack) = natural(stack) else {
        return Err(17);
    };
    if 63 < stack {
        return Err(17);
    }
    Ok(EntryLine { stack, function })
}

/// The registers' types of a label behind so many blocks, or code 11, 12, 15 or 16: 64 slots and 65536 blocks are the most.
/// `is_placed` is whether the label stands where one may, and before an instruction.
#[tactic(auto, unfolding(crate::specs::Lines::label_line))]
pub fn label_line(
    names: &ModuleNames,
    regs: &[RegType],
    slots: &Option<TypeTextList>,
    is_placed: bool,
    blocks: u32,
) -> Result<[Ty; 7], u8>
    ensures { result ≡ label_line (names_shown names.now) regs.now slots.now is_placed blocks }
{
    if !all_known(names, regs) {
        return Err(11);
    }
    if !slots_known(names, slots_given(slots)) {
        return Err(11);
    }
    if repeats(regs) {
        return Err(12);
    }
    if !is_placed {
        return Err(15);
    }
    if slots_given(slots).len() > 64 || blocks >= 65536 {
        return Err(16);
    }
    Ok(types_in(names, regs))
}
