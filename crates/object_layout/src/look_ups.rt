ghost use Rattle.std.specs.Option.{option_map};
ghost use Rattle.std.specs.Prelude.{slice_get, ◌≡◌, ◌⊎◌, ◌<◌, ◌≤◌, ◌^◌, ◌↔◌, length, nat_le, slice_index, map, None, Some, IfOk, IfErr, IsSome, MatchOption, if◌then◌else◌};
ghost use Rattle.object_layout.specs.Areas.{word_index, table_address};
ghost use Rattle.object_layout.specs.Classes.{rounded_up};

use crate::areas::{table_address, word_index};
use crate::faults::ShapeFault;
use crate::laying::{LaidClass, Rows};
use crate::rows::{ClassRow, FieldTy, FunRow, KindRow, Shape};
use std::alloc::Global;
use std::marker::Model;

/// The tables of classes and array kinds. Contracts see the rows that it was made of, which have no
/// fault.
#[derive(Drop)]
pub struct Shapes {
    classes: Vec<LaidClass>,
    kinds: Vec<KindRow>,
    funs: Vec<FunRow>,
    sigs: u32,
}

impl Model for Shapes {
    ghost use Rattle.object_layout.specs.Classes.{ShapesView};

    ghost Value = { ShapesView };

    ghost use Rattle.object_layout.specs.Layout.{kept_rows, IsLaidOut};

    ghost view = { kept_rows };

    ghost invariant = { IsLaidOut };
}

impl Shapes {
    ghost use Rattle.object_layout.specs.Classes.{Below, field_at, slot_at, Element, Need, table_word, descriptor_word, fun_row, Methods, IsShape, ShapesView};
    ghost use Rattle.object_layout.specs.Faults.{first_fault};
    ghost use Rattle.object_layout.specs.Laws.{ClassLaws};
    ghost use Rattle.object_layout.specs.Layout.{IsLaid};

    /// The table of the rows: `sigs` is how many signatures there are, and `funs` has the functions
    /// that the classes' methods name. A refusal is the first fault of the first bad row, classes
    /// before kinds, or want of memory.
    pub fn of(
        alloc: Global,
        classes: &[ClassRow],
        kinds: &[KindRow],
        funs: &[FunRow],
        sigs: u32,
    ) -> Result<Shapes, ShapeFault>
        ensures accepted { let rows : ShapesView = record { classes = classes.now; kinds = kinds.now; funs = funs.now; sigs = sigs } in
            IfOk result (λ shapes. (first_fault rows ≡ None) × (shapes ≡ rows)) }
        ensures refused { let rows : ShapesView = record { classes = classes.now; kinds = kinds.now; funs = funs.now; sigs = sigs } in
            IfErr result (λ fault. (fault ≡ ShapeFault.NoMemory) ⊎ (first_fault rows ≡ Some fault)) }
    {
        let rows = Rows {
            classes,
            kinds,
            funs,
            sigs,
        };
        let laid = rows.laid_classes(alloc)?;
        if let Some(fault) = rows.kinds_fault() {
            return Err(fault);
        }
        Ok(Shapes {
            classes: laid,
            kinds: Vec::from_slice(alloc, kinds)?,
            funs: Vec::from_slice(alloc, funs)?,
            sigs,
        })
    }

    /// What a table may be relied on for: its rows have no fault, and its classes meet the laws of
    /// classes. It computes nothing.
    pub fn meets_laws(&self)
        ensures sound { first_fault self.now ≡ None }
        ensures laws { ClassLaws self.now }
    {
        // A look at the table brings what holds of each table.
        let _classes = &self.classes;
    }

    /// Class `c`, laid out.
    fn class(&self, c: u32) -> Option<&LaidClass>
        ensures laid { MatchOption result (length self.now.classes ≤ c) (λ laid. IsLaid self.now c laid.now) }
        ensures there { IsSome result ↔ (c < length self.now.classes) }
        ensures sound { first_fault self.now ≡ None }
    {
        self.classes.get(c as usize)
    }

    /// The function in a method slot of class `c`, if there is such a slot.
    fn method(&self, c: u32, slot: u32) -> Option<FunRow>
        ensures { result ≡ option_map (fun_row self.now) (slice_get (Methods self.now c) slot) }
    {
        let class = self.class(c)?;
        let function = class.row.methods.items().get(slot as usize).copied()?;
        Some(self.funs[function as usize])
    }

    /// The address of the function in a method slot of class `c`, or 0 past the last slot.
    fn method_address(&self, c: u32, slot: u32) -> u32
        ensures { result ≡ slice_index (map (λ f. (fun_row self.now f).address) (Methods self.now c)) slot }
    {
        match self.method(c, slot) {
            Some(row) => row.address,
            None => 0,
        }
    }

    /// Whether there is a class `c`, and it is `d` or has `d` as an ancestor.
    pub fn below(&self, c: u32, d: u32) -> bool
        ensures { result ≡ Below self.now c d }
    {
        match (self.class(c), self.class(d)) {
            (Some(low), Some(high)) => {
                high.depth <= low.depth && low.lineage[high.depth as usize] == d
            }
            _ => false,
        }
    }

    /// The type of the field at a byte of an object of class `c`; none where no field of such a class
    /// begins there.
    pub fn field_at(&self, c: u32, byte: u32) -> Option<FieldTy>
        ensures { result ≡ field_at self.now c byte }
    {
        let class = self.class(c)?;
        let field = word_index(4, byte)?;
        class.fields.items().get(field as usize).copied()
    }

    /// The signature of the method at a byte of the table of class `c`; none where no method of such a
    /// class has its word there.
    pub fn slot_at(&self, c: u32, byte: u32) -> Option<u32>
        ensures { result ≡ slot_at self.now c byte }
    {
        let slot = word_index(44, byte)?;
        Some(self.method(c, slot)?.sig)
    }

    /// How many heap words an object of the shape takes with its block's head. `length` is the number
    /// of elements, and counts for an array alone.
    pub fn need_words(&self, shape: Shape, length: u32) -> u64
        requires { IsShape self.now shape }
        ensures { result ≡ Need self.now shape length }
    {
        match shape {
            Shape::Class(c) => {
                let class = self.class(c).unwrap();
                rounded_up(3 + class.fields.items().len() as u64)
            }
            Shape::Kind(_) => rounded_up(4 + u64::from(length)),
        }
    }

    /// Word `word` of the table of class `c`; none where there is no such class, and above word 63.
    pub fn table_word(&self, c: u32, word: u32) -> Option<u32>
        ensures value { result ≡ table_word self.now c word }
        ensures there { IsSome result ↔ ((c < length self.now.classes) × (word < 64)) }
    {
        let class = self.class(c)?;
        match word {
            0 => Some(1 + class.fields.items().len() as u32),
            1 => Some(class.depth),
            2 => Some(0),
            3..11 => Some(display_word(&class.lineage, class.depth, word - 3)),
            11..64 => Some(self.method_address(c, word - 11)),
            _ => None,
        }
    }

    /// What the elements of kind `k` are; none where there is no such kind.
    pub fn element_of(&self, k: u32) -> Option<FieldTy>
        ensures value { result ≡ Element self.now k }
        ensures there { IsSome result ↔ (k < length self.now.kinds) }
    {
        let row = self.kinds.get(k as usize)?;
        Some(row.element)
    }

    /// Word `word` of the descriptor of kind `k`; none where there is no such kind, and above word 3.
    #[tactic(auto, unfolding(crate::specs::Classes::descriptor, crate::specs::Classes::descriptor_word))]
    pub fn descriptor_word(&self, k: u32, word: u32) -> Option<u32>
        ensures value { result ≡ descriptor_word self.now k word }
        ensures there { IsSome result ↔ ((k < length self.now.kinds) × (word < 4)) }
    {
        let element = self.element_of(k)?;
        match word {
            0 => Some(u32::from(element.is_reference())),
            1..4 => Some(0),
            _ => None,
        }
    }
}

/// The least multiple of 4 that is not below `words`.
#[tactic(auto, unfolding(crate::specs::Classes::rounded_up))]
fn rounded_up(words: u64) -> u64
    requires { words < 2 ^ 63 }
    ensures { result ≡ rounded_up words }
{
    (words + 3) / 4 * 4
}

/// The word of a class table for the ancestor at a depth: its table, or 0 below the class itself.
fn display_word(lineage: &[u32; 8], depth: u32, level: u32) -> u32
    requires depth { depth ≤ 7 }
    requires level { level < 8 }
    requires classes { slice_index lineage.now level < 1024 }
    ensures { result ≡ (if nat_le level depth then table_address (slice_index lineage.now level) else 0) }
{
    if level <= depth {
        table_address(lineage[level as usize])
    } else {
        0
    }
}
