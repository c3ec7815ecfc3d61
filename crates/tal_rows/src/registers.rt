// Registers with their types, as a signature or a label lists them.
ghost use Rattle.std.specs.Prelude.{◌≡◌, []};
ghost use Rattle.tal_names.specs.Declarations.{names_shown};
ghost use Rattle.tal_rows.specs.Lines.{all_known, slots_given, slots_known, has_register, repeats, type_in, types_in};

use ia32_code::Reg;
use tal_names::ModuleNames;
use tal_syntax::{RegType, TypeText, TypeTextList};
use tal_types::Ty;

/// Whether the names of all types are declared.
#[tactic(auto, using(crate::proofs::Steps::here), unfolding(crate::specs::Lines::all_known))]
pub(crate) fn all_known(names: &ModuleNames, rows: &[RegType]) -> bool
    ensures { result ≡ all_known (names_shown names.now) rows.now }
{
    for row in rows {
        let Some(_) = names.type_of(&row.ty) else {
            return false;
        };
    }
    true
}

/// The slots of a label: none where no list is given.
#[tactic(auto, unfolding(crate::specs::Lines::slots_given))]
pub fn slots_given(slots: &Option<TypeTextList>) -> &[TypeText]
    ensures { result.now ≡ slots_given slots.now }
{
    match slots {
        Some(types) => types.items(),
        None => &[],
    }
}

/// Whether the names of all slots' types are declared.
#[tactic(auto, using(crate::proofs::Steps::here), unfolding(crate::specs::Lines::slots_known))]
pub(crate) fn slots_known(names: &ModuleNames, types: &[TypeText]) -> bool
    ensures { result ≡ slots_known (names_shown names.now) types.now }
{
    for ty in types {
        let Some(_) = names.type_of(ty) else {
            return false;
        };
    }
    true
}

// Whether a register is among them.
#[tactic(auto, using(crate::proofs::Steps::here), unfolding(crate::specs::Lines::has_register))]
fn has_register(reg: Reg, rows: &[RegType]) -> bool
    ensures { result ≡ has_register reg rows.now }
{
    for row in rows {
        if row.reg.number() == reg.number() {
            return true;
        }
    }
    false
}

/// Whether a register is listed twice. There are eight registers, so that the ninth row is looked at at the latest.
#[tactic(auto, using(crate::proofs::Steps::repeats_next), unfolding(crate::specs::Lines::repeats))]
pub fn repeats(rows: &[RegType]) -> bool
    ensures { result ≡ repeats [] rows.now }
{
    for (i, row) in rows.iter().enumerate() {
        if has_register(row.reg, &rows[..i]) {
            return true;
        }
    }
    false
}

// The type of a register: junk where it has no row.
#[tactic(auto, using(crate::proofs::Steps::here), unfolding(crate::specs::Lines::type_in))]
fn type_in(names: &ModuleNames, rows: &[RegType], reg: Reg) -> Ty
    ensures { result ≡ type_in (names_shown names.now) rows.now reg }
{
    for row in rows {
        if row.reg.number() == reg.number() {
            return names.type_of(&row.ty).unwrap_or(Ty::Junk);
        }
    }
    Ty::Junk
}

/// The types of EAX, ECX, EDX, EBX, EBP, ESI and EDI: junk where a register has no row.
pub fn types_in(names: &ModuleNames, rows: &[RegType]) -> [Ty; 7]
    ensures { result ≡ types_in (names_shown names.now) rows.now }
{
    [
        type_in(names, rows, Reg::Eax),
        type_in(names, rows, Reg::Ecx),
        type_in(names, rows, Reg::Edx),
        type_in(names, rows, Reg::Ebx),
        type_in(names, rows, Reg::Ebp),
        type_in(names, rows, Reg::Esi),
        type_in(names, rows, Reg::Edi),
    ]
}
