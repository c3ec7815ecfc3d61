// The readers of classes. Beside each class stand its size and, by its methods, the slots that classes below take over, so
// that a class is read in time linear in its row.
ghost use Rattle.std.specs.Prelude.{◌≡◌, ◌≤◌, ◌+◌, ◌++◌, ◌∷◌, [], length, map, drop, IfOk, MatchOption, false, slice_get};
ghost use Rattle.object_layout.specs.Classes.{ShapesView};
ghost use Rattle.tal_image.specs.Conditions.{class_view, parent_fits, fields_fit, methods_fit, method_fits};
ghost use Rattle.file_fields.specs.Grammar.{checked, many};
ghost use Rattle.file_fields.specs.Reading.{GivesAt, GivesView, run};
ghost use Rattle.tal_image.specs.Fields.{parent_of, with_class, class_fields, method_list};
ghost use Rattle.tal_image.specs.ClassReading.{behind_parent, function_signature, above_methods, slot_fits, AreSizes, IsAbove};

use crate::parts::{FunctionPart, Tables};
use crate::row_reader::field_types;
use file_fields::{ImageFault, Reader, require};
use object_layout::{ClassRow, MethodList};
use std::alloc::Global;

/// How many classes stand from the root down to a class, and how many fields it has with theirs.
#[derive(Clone, Copy, Debug, PartialEq, Eq)]
pub struct ClassSize {
    pub lineage: u32,
    pub fields: u32,
}

/// A class and its size.
#[derive(Drop)]
pub struct SizedClass {
    pub row: ClassRow,
    pub size: ClassSize,
}

/// The parent with a number.
#[tactic(auto, unfolding(crate::specs::Fields::parent_of))]
fn parent_of(number: u32) -> Option<u32>
    ensures { result ≡ parent_of number }
{
    number.checked_sub(1)
}

/// The size of what stands above a class with the parent of this number; none where it may not have that parent.
fn size_above(sizes: &[ClassSize], number: u32) -> Option<ClassSize>
    ensures { (s : ShapesView) → AreSizes s sizes.now → MatchOption result (parent_fits s number ≡ false) (λ size. IsAbove s number size) }
{
    match parent_of(number) {
        None => Some(ClassSize {
            lineage: 0,
            fields: 0,
        }),
        Some(parent) => match sizes.get(parent as usize) {
            Some(size) if size.lineage <= 7 => Some(*size),
            _ => None,
        },
    }
}

/// The functions in the slots that a class takes over from the parent with a number.
fn methods_above(classes: &[ClassRow], number: u32) -> &[u32]
    ensures { (s : ShapesView) → s.classes ≡ classes.now → result.now ≡ above_methods s number }
{
    match parent_of(number) {
        None => &[],
        Some(parent) => match classes.get(parent as usize) {
            Some(row) => row.methods.items(),
            None => &[],
        },
    }
}

/// The signature of a function, or 0 where there is none.
#[tactic(auto, unfolding(crate::specs::ClassReading::function_signature))]
fn signature(functions: &[FunctionPart], function: u32) -> u32
    ensures { result ≡ function_signature functions.now function }
{
    functions.get(function as usize).map_or(0, |row| row.sig)
}

/// Whether a function may stand in a method slot, where these functions stand in the slots that are taken over.
#[tactic(auto, unfolding(crate::specs::ClassReading::slot_fits))]
fn slot_fits(functions: &[FunctionPart], above: &[u32], slot: u32, function: u32) -> bool
    ensures { result ≡ slot_fits functions.now (slice_get above.now slot) function }
{
    match functions.get(function as usize) {
        Some(row) => match above.get(slot as usize) {
            Some(taken) => row.sig == signature(functions, *taken),
            None => true,
        },
        None => false,
    }
}

/// The next number, a class's parent, with the size of what stands above the class.
#[tactic(auto, using(file_fields::specs::Composed::checked_run))]
fn parent(reader: &mut Reader<'_>, sizes: &[ClassSize]) -> Result<(u32, ClassSize), ImageFault>
    ensures gives { (s : ShapesView) → AreSizes s sizes.now → GivesView (λ p. p.0) result (run (checked (parent_fits s) 16) reader.old.file.now reader.old.at) reader.new.at }
    ensures above { (s : ShapesView) → AreSizes s sizes.now → IfOk result (λ p. IsAbove s p.0 p.1) }
    ensures file { reader.new.file ≡ reader.old.file }
{
    let at = reader.at as u32;
    let number = reader.number()?;
    match size_above(sizes, number) {
        Some(size) => Ok((number, size)),
        None => Err(ImageFault::Bad { at, field: 16 }),
    }
}

/// The next number, of a class's own fields, where it takes over so many.
#[tactic(auto, using(file_fields::specs::Composed::checked_run))]
fn own_fields(reader: &mut Reader<'_>, above: u32) -> Result<u32, ImageFault>
    ensures gives { GivesAt result (run (checked (fields_fit above) 17) reader.old.file.now reader.old.at) reader.new.at }
    ensures file { reader.new.file ≡ reader.old.file }
    ensures fits { IfOk result (λ n. above + n ≤ 256) }
{
    let at = reader.at as u32;
    let number = reader.number()?;
    require(u64::from(above) + u64::from(number) <= 256, at, 17)?;
    Ok(number)
}

/// The next number, of a class's methods, where it takes over so many.
#[tactic(auto, using(file_fields::specs::Composed::checked_run))]
fn method_count(reader: &mut Reader<'_>, above: usize) -> Result<u32, ImageFault>
    ensures gives { GivesAt result (run (checked (methods_fit above) 19) reader.old.file.now reader.old.at) reader.new.at }
    ensures file { reader.new.file ≡ reader.old.file }
{
    let at = reader.at as u32;
    let number = reader.number()?;
    require(above <= number as usize && number <= 53, at, 19)?;
    Ok(number)
}

/// The next number, the function in a method slot, where these functions stand in the slots that are taken over.
#[tactic(auto, using(crate::proofs::Classes::Sizes::slot_is, file_fields::specs::Composed::checked_run))]
fn method(
    reader: &mut Reader<'_>,
    functions: &[FunctionPart],
    above: &[u32],
    slot: u32,
) -> Result<u32, ImageFault>
    ensures gives { GivesAt result (run (checked (method_fits functions.now (drop slot (map (function_signature functions.now) above.now))) 20) reader.old.file.now reader.old.at) reader.new.at }
    ensures file { reader.new.file ≡ reader.old.file }
{
    let at = reader.at as u32;
    let function = reader.number()?;
    require(slot_fits(functions, above, slot, function), at, 20)?;
    Ok(function)
}

/// The functions in the next method slots, so many, where these stand in the slots that are taken over.
fn methods(
    alloc: Global,
    reader: &mut Reader<'_>,
    functions: &[FunctionPart],
    above: &[u32],
    count: u32,
) -> Result<MethodList, ImageFault>
    ensures gives { GivesAt result (run (method_list functions.now count (map (function_signature functions.now) above.now)) reader.old.file.now reader.old.at) reader.new.at }
    ensures file { reader.new.file ≡ reader.old.file }
{
    let mut methods = MethodList::new(alloc);
    for i in 0..count {
        let one = method(reader, functions, above, i)?;
        methods.push(one)?;
    }
    Ok(methods)
}

/// The rest of the next class behind its parent's number, where it takes over so many fields, and the slots of these
/// functions.
#[tactic(auto, using(crate::proofs::Classes::Readings::behind_parent_run))]
fn behind_parent(
    alloc: Global,
    reader: &mut Reader<'_>,
    tables: &Tables,
    functions: &[FunctionPart],
    number: u32,
    above: u32,
    taken: &[u32],
) -> Result<ClassRow, ImageFault>
    ensures gives { GivesAt result (run (behind_parent tables.now functions.now number above (map (function_signature functions.now) taken.now)) reader.old.file.now reader.old.at) reader.new.at }
    ensures file { reader.new.file ≡ reader.old.file }
    ensures parent { IfOk result (λ row. row.parent ≡ parent_of number) }
    ensures fits { IfOk result (λ row. above + length row.fields ≤ 256) }
{
    let own = own_fields(reader, above)?;
    let fields = field_types(alloc, reader, tables, own)?;
    let count = method_count(reader, taken.len())?;
    let methods = methods(alloc, reader, functions, taken, count)?;
    Ok(ClassRow {
        parent: parent_of(number),
        fields,
        methods,
    })
}

/// The next class, after these, whose sizes are these.
pub fn class(
    alloc: Global,
    reader: &mut Reader<'_>,
    tables: &Tables,
    functions: &[FunctionPart],
    classes: &[ClassRow],
    sizes: &[ClassSize],
) -> Result<SizedClass, ImageFault>
    requires { AreSizes (class_view functions.now classes.now) sizes.now }
    ensures gives { GivesView (λ c. c.row) result (run (class_fields tables.now functions.now classes.now) reader.old.file.now reader.old.at) reader.new.at }
    ensures file { reader.new.file ≡ reader.old.file }
    ensures sized { IfOk result (λ c. AreSizes (class_view functions.now (with_class classes.now c.row)) (sizes.now ++ c.size ∷ [])) }
{
    object_layout::laws::lineage_laws();
    let (number, above) = parent(reader, sizes)?;
    let taken = methods_above(classes, number);
    let row = behind_parent(
        alloc,
        reader,
        tables,
        functions,
        number,
        above.fields,
        taken,
    )?;
    let size = ClassSize {
        lineage: above.lineage + 1,
        fields: above.fields + row.fields.items().len() as u32,
    };
    Ok(SizedClass { row, size })
}

/// The next classes, so many.
pub(crate) fn classes(
    alloc: Global,
    reader: &mut Reader<'_>,
    tables: &Tables,
    functions: &[FunctionPart],
    count: u32,
) -> Result<Vec<ClassRow>, ImageFault>
    ensures gives { GivesView (λ v. v.items) result (run (many count (λ later classes. class_fields tables.now functions.now classes) with_class []) reader.old.file.now reader.old.at) reader.new.at }
    ensures file { reader.new.file ≡ reader.old.file }
{
    let mut classes = Vec::new(alloc);
    let mut sizes = Vec::new(alloc);
    for i in 0..count {
        let one = class(alloc, reader, tables, functions, &classes, &sizes)?;
        classes.push(one.row)?;
        sizes.push(one.size)?;
    }
    Ok(classes)
}
