// A set of names that numbers them in the order in which they came.
ghost use Rattle.std.specs.Prelude.{ℕ, ◌≡◌, ◌<◌, ◌^◌, [], List, not, length, slice_get, MatchOption, IfSome, IfOk, OnOk, OnErr, None, Some};
ghost use Rattle.tal_names.specs.NameSets.{is_named, with_name, number_of_name};

use indexmap::IndexSet;
use no_memory::NoMemory;
use std::alloc::Global;
use std::marker::Model;

/// Names, each once, numbered from 0 in the order in which they were added. Contracts see their list. Look-ups go by a hash,
/// whose seed is fixed: names that were chosen to collide are slow to find.
#[derive(Drop)]
pub struct NameSet {
    names: IndexSet<Vec<u8>>,
}

impl Model for NameSet {
    ghost use Rattle.std.specs.Prelude.{List, ℕ, ◌<◌, ◌^◌, map, length};
    ghost use Rattle.std.specs.Global.{Vec};

    ghost Value = { List (List ℕ) };

    ghost view = { λ set. map (λ (name : Vec ℕ). name.items) set.names.keys };

    ghost invariant = { λ set. length set.names.keys < 2 ^ 32 };
}

// A name, to keep.
fn owned(alloc: Global, name: &[u8]) -> Result<Vec<u8>, NoMemory>
    ensures { IfOk result (λ kept. kept.items ≡ name.now) }
{
    Ok(name.to_vec(alloc)?)
}

impl NameSet {
    /// No names. It takes no memory.
    pub fn new(alloc: Global) -> NameSet
        ensures { result ≡ [] }
    {
        NameSet {
            names: IndexSet::new(alloc),
        }
    }

    /// Adds a name where it is new, and answers whether it was. Numbers have 32 bits: with 2^32 - 1 names a further one is
    /// answered by `NoMemory`, too.
    pub fn add(&mut self, alloc: Global, name: &[u8]) -> Result<bool, NoMemory>
        ensures is_new { IfOk result (λ is_new. is_new ≡ not (is_named self.old name.now)) }
        ensures added { OnOk result (self.new ≡ with_name self.old name.now) }
        ensures err { OnErr result (self.new ≡ self.old) }
    {
        if self.names.contains(name) {
            return Ok(false);
        }
        if self.names.len() >= u32::MAX as usize {
            return Err(NoMemory);
        }
        self.names.insert(owned(alloc, name)?)?;
        Ok(true)
    }

    /// The number of a name. None exactly where it is not among them.
    pub fn number(&self, name: &[u8]) -> Option<u32>
        ensures number { result ≡ number_of_name self.now name.now }
        ensures within { IfSome result (λ i. i < length self.now) }
    {
        match self.names.get_index_of(name) {
            Some(number) => Some(number as u32),
            None => None,
        }
    }

    /// Whether a name is among them.
    pub fn contains(&self, name: &[u8]) -> bool
        ensures { result ≡ is_named self.now name.now }
    {
        self.names.contains(name)
    }

    /// How many names there are.
    pub fn len(&self) -> u32
        ensures { result ≡ length self.now }
    {
        self.names.len() as u32
    }

    /// The name with a number.
    pub fn name(&self, number: u32) -> Option<&[u8]>
        ensures { MatchOption result (slice_get self.now number ≡ None) (λ name. slice_get self.now number ≡ Some name.now) }
    {
        match self.names.get_index(number as usize) {
            Some(name) => Some(name.as_slice()),
            None => None,
        }
    }
}
