ghost use Rattle.std.specs.Prelude.{◌≡◌, ◌⊎◌, ◌+◌, ◌<◌, ◌≤◌, ◌&&◌, ◌||◌, length, nat_lt, nat_le, false, slice_get, None, Some, IfOk, IfErr, MatchOption, All};
ghost use Rattle.std.specs.List.{list_all};

use crate::faults::ShapeFault;
use crate::rows::{ClassRow, FieldList, FieldTy, FunRow, KindRow};
use no_memory::NoMemory;
use std::alloc::Global;
use std::marker::Model;

/// A class's row, with what is looked up in it laid out.
#[derive(Drop)]
pub(crate) struct LaidClass {
    pub(crate) row: ClassRow,
    /// How many ancestors the class has, 0 to 7.
    pub(crate) depth: u32,
    /// The class at its depth, behind its ancestors at theirs.
    pub(crate) lineage: [u32; 8],
    /// The types of all fields, the parent's first.
    pub(crate) fields: FieldList,
}

/// The rows that a table is made of. Contracts see them as the table does.
#[derive(Clone, Copy)]
pub(crate) struct Rows<'a> {
    pub(crate) classes: &'a [ClassRow],
    pub(crate) kinds: &'a [KindRow],
    pub(crate) funs: &'a [FunRow],
    pub(crate) sigs: u32,
}

/// What a class takes over from its parent: how many ancestors it has, these by their depth, and the
/// types of the fields and the functions of the methods that stand before its own.
#[derive(Clone, Copy)]
pub(crate) struct Inherited<'a> {
    ancestors: u32,
    lineage: [u32; 8],
    fields: &'a [FieldTy],
    methods: &'a [u32],
}

impl Rows<'_> {
    ghost use Rattle.object_layout.specs.Classes.{fun_row, signatures_of};
    ghost use Rattle.object_layout.specs.Faults.{is_type, is_front, has_earlier_parent, class_fault, kind_fault, first_below};
    ghost use Rattle.object_layout.specs.Layout.{given_rows, IsLaid, IsLaidBefore, IsInherited};

    /// Whether the class, kind or signature that a type names is there.
    #[tactic(auto, unfolding(crate::specs::Faults::is_type))]
    fn is_type(&self, t: FieldTy) -> bool
        ensures { result ≡ is_type (given_rows self.now) t }
    {
        match t {
            FieldTy::Num => true,
            FieldTy::Ref(c) => (c as usize) < self.classes.len(),
            FieldTy::ArrRef(k) => (k as usize) < self.kinds.len(),
            FieldTy::Fun(g) => g < self.sigs,
        }
    }

    /// Whether all that the types of fields name is there.
    fn has_types(&self, fields: &[FieldTy]) -> bool
        ensures { result ≡ list_all (is_type (given_rows self.now)) fields.now }
    {
        fields.iter().all(|t| self.is_type(*t))
    }

    /// Whether all functions are there.
    fn has_functions(&self, functions: &[u32]) -> bool
        ensures { result ≡ list_all (λ f. nat_lt f (length self.now.funs.now)) functions.now }
    {
        functions.iter().all(|f| (*f as usize) < self.funs.len())
    }

    /// Whether all that a row names is there.
    fn has_indexes(&self, row: &ClassRow) -> bool
        ensures { result ≡ (list_all (is_type (given_rows self.now)) row.now.fields && list_all (λ f. nat_lt f (length self.now.funs.now)) row.now.methods) }
    {
        self.has_types(row.fields.items()) && self.has_functions(row.methods.items())
    }

    /// The signature of a function.
    #[tactic(auto, unfolding(crate::specs::Classes::fun_row))]
    fn signature(&self, f: u32) -> u32
        requires { f < length self.now.funs.now }
        ensures { result ≡ (fun_row (given_rows self.now) f).sig }
    {
        self.funs[f as usize].sig
    }

    /// Whether the second list begins with functions of the same signatures as the first list's.
    fn keeps(&self, inherited: &[u32], methods: &[u32]) -> bool
        requires inherited { All (λ f. f < length self.now.funs.now) inherited.now }
        requires methods { All (λ f. f < length self.now.funs.now) methods.now }
        ensures { let s = given_rows self.now in result ≡ is_front (signatures_of s inherited.now) (signatures_of s methods.now) }
    {
        if inherited.len() > methods.len() {
            return false;
        }
        for slot in 0..inherited.len() {
            if self.signature(inherited[slot]) != self.signature(methods[slot]) {
                return false;
            }
        }
        true
    }

    /// Class row `c`.
    fn row(&self, c: usize) -> &ClassRow
        requires { c < length self.now.classes.now }
        ensures { slice_get self.now.classes.now c ≡ Some result.now }
    {
        &self.classes[c]
    }

    /// What class `c` takes over from its parent; none where that is not an earlier class.
    fn inherited<'b>(&self, laid: &'b [LaidClass], c: usize) -> Option<Inherited<'b>>
        requires before { IsLaidBefore (given_rows self.now) laid.now c }
        requires there { c < length self.now.classes.now }
        ensures { MatchOption result (has_earlier_parent (given_rows self.now) c ≡ false) (IsInherited (given_rows self.now) c) }
    {
        match self.row(c).parent {
            None => Some(Inherited {
                ancestors: 0,
                lineage: [0; 8],
                fields: &[],
                methods: &[],
            }),
            Some(p) => {
                if p as usize >= c {
                    return None;
                }
                let parent = &laid[p as usize];
                Some(Inherited {
                    ancestors: parent.depth + 1,
                    lineage: parent.lineage,
                    fields: parent.fields.items(),
                    methods: parent.row.methods.items(),
                })
            }
        }
    }

    /// The first fault of class row `c`, whose parent is an earlier class.
    fn class_fault(&self, above: Inherited<'_>, c: usize) -> Option<ShapeFault>
        requires above { IsInherited (given_rows self.now) c above }
        requires there { c < length self.now.classes.now }
        requires few { c ≤ 1024 }
        ensures { result ≡ class_fault (given_rows self.now) c }
    {
        let row = c as u32;
        let class = self.row(c);
        if above.ancestors > 7 {
            Some(ShapeFault::TooDeep { row })
        } else if is_too_many(above.fields, class, c) {
            Some(ShapeFault::TooMany { row })
        } else if !self.has_indexes(class) {
            Some(ShapeFault::BadIndex { row })
        } else if !self.keeps(above.methods, class.methods.items()) {
            Some(ShapeFault::BadMethod { row })
        } else {
            None
        }
    }

    /// Class row `c`, which has no fault, laid out.
    fn laid_out(&self, alloc: Global, above: Inherited<'_>, c: usize) -> Result<LaidClass, NoMemory>
        requires above { IsInherited (given_rows self.now) c above }
        requires there { c < length self.now.classes.now }
        requires sound { class_fault (given_rows self.now) c ≡ None }
        ensures { IfOk result (IsLaid (given_rows self.now) c) }
    {
        let row = self.row(c);
        let mut lineage = above.lineage;
        lineage[above.ancestors as usize] = c as u32;
        Ok(LaidClass {
            row: row.copied(alloc)?,
            depth: above.ancestors,
            lineage,
            fields: FieldList::joined(alloc, above.fields, row.fields.items())?,
        })
    }

    /// Class row `c` laid out behind the rows before it, or its first fault.
    fn next(&self, alloc: Global, laid: &[LaidClass], c: usize) -> Result<LaidClass, ShapeFault>
        requires before { IsLaidBefore (given_rows self.now) laid.now c }
        requires there { c < length self.now.classes.now }
        requires few { c ≤ 1024 }
        ensures ok { IfOk result (λ class. (class_fault (given_rows self.now) c ≡ None) × IsLaid (given_rows self.now) c class) }
        ensures err { IfErr result (λ fault. (fault ≡ ShapeFault.NoMemory) ⊎ (class_fault (given_rows self.now) c ≡ Some fault)) }
    {
        let Some(above) = self.inherited(laid, c) else {
            return Err(ShapeFault::BadParent { row: c as u32 });
        };
        match self.class_fault(above, c) {
            Some(fault) => Err(fault),
            None => Ok(self.laid_out(alloc, above, c)?),
        }
    }

    /// The class rows, laid out, or the first fault of the first bad one.
    pub(crate) fn laid_classes(&self, alloc: Global) -> Result<Vec<LaidClass>, ShapeFault>
        ensures ok { IfOk result (λ laid. IsLaidBefore (given_rows self.now) laid.items (length self.now.classes.now)) }
        ensures err { IfErr result (λ fault. (fault ≡ ShapeFault.NoMemory)
            ⊎ (first_below (length self.now.classes.now) (class_fault (given_rows self.now)) ≡ Some fault)) }
    {
        let mut laid = Vec::new(alloc);
        for c in 0..self.classes.len() {
            let class = self.next(alloc, &laid, c)?;
            laid.push(class)?;
        }
        Ok(laid)
    }

    /// The first fault of kind row `k`.
    #[tactic(auto, unfolding(crate::specs::Faults::kind_fault, crate::specs::Classes::Element))]
    fn kind_fault(&self, k: usize) -> Option<ShapeFault>
        requires there { k < length self.now.kinds.now }
        requires few { k ≤ 256 }
        ensures { result ≡ kind_fault (given_rows self.now) k }
    {
        let row = k as u32;
        if k >= 256 {
            Some(ShapeFault::TooMany { row })
        } else if !self.is_type(self.kinds[k].element) {
            Some(ShapeFault::BadIndex { row })
        } else {
            None
        }
    }

    /// The first fault of the first bad kind row.
    pub(crate) fn kinds_fault(&self) -> Option<ShapeFault>
        ensures { result ≡ first_below (length self.now.kinds.now) (kind_fault (given_rows self.now)) }
    {
        for k in 0..self.kinds.len() {
            if let Some(fault) = self.kind_fault(k) {
                return Some(fault);
            }
        }
        None
    }
}

/// Whether class row `c` has too many fields with those before its own, or too many methods, or is past
/// the last row that a table takes.
fn is_too_many(inherited: &[FieldTy], row: &ClassRow, c: usize) -> bool
    requires { length inherited.now ≤ 256 }
    ensures { result ≡ (nat_lt 256 (length inherited.now + length row.now.fields) || (nat_lt 53 (length row.now.methods) || nat_le 1024 c)) }
{
    row.fields.items().len() > 256 - inherited.len() || row.methods.items().len() > 53 || c >= 1024
}
