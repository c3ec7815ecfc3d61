// The names of one table over all units, in the order of first mention.
ghost use Rattle.std.specs.Prelude.{◌≡◌, ◌<◌, ◌∷◌, ◌++◌, [], ℕ, List, length, slice_get, OnOk, OnErr, IfOk, MatchOption, None, Some};
ghost use Rattle.image_linker.specs.RowMentions.{RowMention, names_in, number_among, first_name, is_given_twice, is_missing, meant_rows};
ghost use Rattle.image_linker.specs.NameRows.{name_rows, owner_with, owner_in};

use indexmap::IndexMap;
use no_memory::NoMemory;
use std::alloc::Global;
use std::marker::Model;

/// Of a name's rows that are not extern: the place of the first, and whether there is another one.
#[derive(Clone, Copy, Debug, Drop)]
pub struct Owner {
    pub first: Option<usize>,
    pub twice: bool,
}

/// The names of one table. Each row is told by its place among all rows of the table, over all units.
#[derive(Drop)]
pub struct NameTable {
    rows: IndexMap<Vec<u8>, Owner>,
}

impl Model for NameTable {
    ghost use Rattle.std.specs.Prelude.{List, map};
    ghost use Rattle.image_linker.specs.NameRows.{NameRow, name_row};

    ghost Value = { List NameRow };

    ghost view = { λ t. map name_row t.rows.entries };
}

/// A name with one row more.
fn owner_with(owner: Owner, ext: bool, place: usize) -> Owner
    ensures { result ≡ owner_with owner ext place }
{
    if ext {
        return owner;
    }
    match owner.first {
        None => Owner {
            first: Some(place),
            twice: owner.twice,
        },
        Some(first) => Owner {
            first: Some(first),
            twice: true,
        },
    }
}

/// A name, to keep.
fn owned(alloc: Global, name: &[u8]) -> Result<Vec<u8>, NoMemory>
    ensures { IfOk result (λ v. v.items ≡ name.now) }
{
    Ok(name.to_vec(alloc)?)
}

impl NameTable {
    /// No names.
    pub fn new(alloc: Global) -> NameTable
        ensures { result ≡ name_rows [] }
    {
        NameTable {
            rows: IndexMap::new(alloc),
        }
    }

    /// What is known of a name.
    fn owner(&self, name: &[u8]) -> Owner
        ensures { result ≡ owner_in self.now name.now }
    {
        match self.rows.get(name) {
            Some(owner) => *owner,
            None => Owner {
                first: None,
                twice: false,
            },
        }
    }

    /// Notes a row, and answers the number that its name has, whatever rows come later. Without memory the table stays.
    pub fn mention(
        &mut self,
        alloc: Global,
        name: &[u8],
        ext: bool,
        place: usize,
    ) -> Result<usize, NoMemory>
        ensures number { IfOk result (λ n. (rows more : List (RowMention ℕ)) → self.old ≡ name_rows rows → n ≡ number_among (names_in (rows ++ record { name = name.now; ext = ext; row = place } ∷ more)) name.now) }
        ensures kept { OnOk result ((rows : List (RowMention ℕ)) → self.old ≡ name_rows rows → self.new ≡ name_rows (rows ++ record { name = name.now; ext = ext; row = place } ∷ [])) }
        ensures err { OnErr result (self.new ≡ self.old) }
    {
        let next = owner_with(self.owner(name), ext, place);
        let (number, _) = self.rows.insert_full(owned(alloc, name)?, next)?;
        Ok(number)
    }

    /// How many names these rows have.
    pub fn len(&self) -> usize
        ensures { (rows : List (RowMention ℕ)) → self.now ≡ name_rows rows → result ≡ length (names_in rows) }
    {
        self.rows.len()
    }

    /// The row of a number.
    fn row(&self, number: usize) -> (&[u8], Owner)
        requires { number < length self.now }
        ensures { slice_get self.now number ≡ Some (record { name = result.0.now; owner = result.1 }) }
    {
        let (name, owner) = self.rows.get_index(number).unwrap();
        (name, *owner)
    }

    /// How many names there are.
    fn count(&self) -> usize
        ensures { result ≡ length self.now }
    {
        self.rows.len()
    }

    /// The first name that two rows give which are not extern.
    pub fn first_twice(&self) -> Option<&[u8]>
        ensures { (rows : List (RowMention ℕ)) → self.now ≡ name_rows rows → MatchOption result (first_name (is_given_twice rows) rows ≡ None) (λ n. first_name (is_given_twice rows) rows ≡ Some n.now) }
    {
        for i in 0..self.count() {
            let (name, owner) = self.row(i);
            if owner.twice {
                return Some(name);
            }
        }
        None
    }

    /// The first name that no row gives: all are extern.
    pub fn first_missing(&self) -> Option<&[u8]>
        ensures { (rows : List (RowMention ℕ)) → self.now ≡ name_rows rows → MatchOption result (first_name (is_missing rows) rows ≡ None) (λ n. first_name (is_missing rows) rows ≡ Some n.now) }
    {
        for i in 0..self.count() {
            let (name, owner) = self.row(i);
            if owner.first.is_none() {
                return Some(name);
            }
        }
        None
    }

    /// The places of the rows that the names mean, in the order of their numbers.
    pub fn meant(&self, alloc: Global) -> Result<Vec<usize>, NoMemory>
        ensures { IfOk result (λ places. (rows : List (RowMention ℕ)) → self.now ≡ name_rows rows → places.items ≡ meant_rows rows) }
    {
        let mut places = Vec::new(alloc);
        for i in 0..self.count() {
            let (_, owner) = self.row(i);
            if let Some(place) = owner.first {
                places.push(place)?;
            }
        }
        Ok(places)
    }
}
