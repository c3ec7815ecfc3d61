// Rows of frames by address. Each different row is kept once, in a set that a hash searches; addresses are kept in
// order, each with the number of its row, and are searched by halving.
ghost use Rattle.std.specs.Prelude.{ℕ, ◌≡◌, ◌≢◌, ◌<◌, ◌^◌, ◌∷◌, ◌++◌, [], All, IfOk, IfSome, OnOk, OnErr, MatchOption, slice_index, length, map};
ghost use Rattle.frame_tables.specs.FrameRows.{frame_row_at, with_row, different_rows};
ghost use Rattle.frame_tables.specs.Layout.{Rises, row_kept, row_numbered};

use indexmap::IndexSet;
use no_memory::NoMemory;
use std::alloc::Global;
use std::marker::Model;
use tal_types::FrameRow;

// Where this address stands among rising ones.
fn find_address(addresses: &[u32], pc: u32) -> Option<usize>
    requires { Rises addresses.now }
    ensures { MatchOption result ((i : ℕ) → i < length addresses.now → slice_index addresses.now i ≢ pc) (λ i. (i < length addresses.now) × (slice_index addresses.now i ≡ pc)) }
{
    match addresses.binary_search(&pc) {
        Ok(at) => Some(at),
        Err(_) => None,
    }
}

// The row of this number.
fn kept_row(rows: &IndexSet<(u8, u8, u64)>, number: u32) -> FrameRow
    requires { number < length rows.now.keys }
    ensures { result ≡ row_numbered (map row_kept rows.now.keys) number }
{
    let (regs, slots, refs) = *rows.get_index(number as usize).unwrap();
    FrameRow { regs, slots, refs }
}

// Keeps a row, where it is not kept already, and answers its number. Numbers have 32 bits.
fn keep_row(rows: &mut IndexSet<(u8, u8, u64)>, row: FrameRow) -> Result<u32, NoMemory>
    ensures joined { OnOk result (map row_kept rows.new.keys ≡ with_row (map row_kept rows.old.keys) row) }
    ensures few { OnOk result (length rows.new.keys < 2 ^ 32) }
    ensures number { IfOk result (λ n. (n < length rows.new.keys) × (row_numbered (map row_kept rows.new.keys) n ≡ row)) }
    ensures err { OnErr result (rows.new.keys ≡ rows.old.keys) }
{
    if rows.len() >= u32::MAX as usize {
        return Err(NoMemory);
    }
    let (number, _) = rows.insert_full((row.regs, row.slots, row.refs))?;
    Ok(number as u32)
}

// The number of the row that was kept last, where it is this one.
fn last_number(rows: &IndexSet<(u8, u8, u64)>, numbers: &[u32], row: FrameRow) -> Option<u32>
    requires { All (λ n. n < length rows.now.keys) numbers.now }
    ensures { IfSome result (λ n. (n < length rows.now.keys) × (row_numbered (map row_kept rows.now.keys) n ≡ row)) }
{
    let number = *numbers.last()?;
    if kept_row(rows, number) == row {
        Some(number)
    } else {
        None
    }
}

// The number of a row, which is kept where it is not already. Most instructions have the row of the one before.
fn number_of(
    rows: &mut IndexSet<(u8, u8, u64)>,
    numbers: &[u32],
    row: FrameRow,
) -> Result<u32, NoMemory>
    requires known { All (λ n. n < length rows.old.keys) numbers.now }
    requires few { length rows.old.keys < 2 ^ 32 }
    ensures joined { OnOk result (map row_kept rows.new.keys ≡ with_row (map row_kept rows.old.keys) row) }
    ensures few { OnOk result (length rows.new.keys < 2 ^ 32) }
    ensures number { IfOk result (λ n. (n < length rows.new.keys) × (row_numbered (map row_kept rows.new.keys) n ≡ row)) }
    ensures err { OnErr result (rows.new.keys ≡ rows.old.keys) }
{
    match last_number(rows, numbers, row) {
        Some(number) => Ok(number),
        None => keep_row(rows, row),
    }
}

/// The rows of frames by the addresses of instructions.
#[derive(Drop)]
pub struct FrameTable {
    addresses: Vec<u32>,
    numbers: Vec<u32>,
    rows: IndexSet<(u8, u8, u64)>,
}

impl Model for FrameTable {
    ghost use Rattle.std.specs.Prelude.{List, map};
    ghost use Rattle.frame_tables.specs.FrameRows.{RowAt};
    ghost use Rattle.frame_tables.specs.Layout.{row_kept, addressed_rows, IsFrameTable};

    ghost Value = { List RowAt };

    ghost view = { λ t. addressed_rows (map row_kept t.rows.keys) t.addresses.items t.numbers.items };

    ghost invariant = { λ t. IsFrameTable (map row_kept t.rows.keys) t.addresses.items t.numbers.items };
}

impl FrameTable {
    /// No rows yet. It takes no memory.
    pub fn new(alloc: Global) -> FrameTable
        ensures { result ≡ [] }
    {
        FrameTable {
            addresses: Vec::new(alloc),
            numbers: Vec::new(alloc),
            rows: IndexSet::new(alloc),
        }
    }

    /// Keeps the row of the instruction at `pc`, which is above every address so far. Different rows have numbers of 32 bits:
    /// with 2^32 - 1 of them a further one is answered by `NoMemory`, too. No image comes near that.
    pub fn push(&mut self, pc: u32, row: FrameRow) -> Result<(), NoMemory>
        requires { All (λ r. r.pc < pc) self.old }
        ensures ok { OnOk result (self.new ≡ self.old ++ record { pc = pc; row = row } ∷ []) }
        ensures err { OnErr result (self.new ≡ self.old) }
    {
        self.addresses.reserve(1)?;
        self.numbers.reserve(1)?;
        let number = number_of(&mut self.rows, &self.numbers, row)?;
        self.addresses.push_reserved(pc);
        self.numbers.push_reserved(number);
        Ok(())
    }

    /// The row at `pc`. None exactly where no instruction begins there.
    pub fn row(&self, pc: u32) -> Option<FrameRow>
        ensures { result ≡ frame_row_at self.now pc }
    {
        match find_address(&self.addresses, pc) {
            Some(at) => Some(kept_row(&self.rows, self.numbers[at])),
            None => None,
        }
    }

    /// How many different rows there are.
    pub fn distinct(&self) -> u32
        ensures { result ≡ length (different_rows self.now) }
    {
        self.rows.len() as u32
    }
}
