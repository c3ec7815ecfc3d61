// The lines of the screen: its characters and its attributes.
ghost use Rattle.std.specs.Prelude.{◌≡◌, ◌++◌, [], ◌∷◌, OnOk, length, map};
ghost use Rattle.std.specs.List.{flat_map};
ghost use Rattle.device_model.specs.declared.screen.TheConstants.{CELLS};
ghost use Rattle.run_report.specs.Report.{cell_mark, cell_attribute, cell_rows};

use hex_text::byte_digits;
use std::alloc::AllocError;

/// The rows of the screen.
const ROWS: usize = 25;

/// The cells of a row.
const COLUMNS: usize = 80;

// The character of a cell.
fn mark(cell: u16) -> u8
    ensures { result ≡ cell_mark cell }
{
    let code = (cell % 256) as u8;
    if 32 <= code && code <= 126 {
        code
    } else {
        b'.'
    }
}

// Appends a line of characters.
fn push_mark_row(out: &mut Vec<u8>, cells: &[u16]) -> Result<(), AllocError>
    ensures { OnOk result (out.new.items ≡ out.old.items ++ map cell_mark cells.now ++ 10 ∷ []) }
{
    for cell in cells {
        out.push(mark(*cell))?;
    }
    out.push(b'\n')?;
    Ok(())
}

// Appends the lines of characters.
pub(crate) fn push_marks(out: &mut Vec<u8>, cells: &[u16]) -> Result<(), AllocError>
    requires { length cells.now ≡ CELLS }
    ensures { OnOk result (out.new.items ≡ out.old.items ++ cell_rows (map cell_mark) 25 cells.now) }
{
    let mut rest = cells;
    for _ in 0..ROWS {
        let (row, next) = rest.split_at(COLUMNS);
        push_mark_row(out, row)?;
        rest = next;
    }
    Ok(())
}

// Appends a line of attributes.
fn push_attribute_row(out: &mut Vec<u8>, cells: &[u16]) -> Result<(), AllocError>
    ensures { OnOk result (out.new.items ≡ out.old.items ++ flat_map cell_attribute cells.now ++ 10 ∷ []) }
{
    for cell in cells {
        out.extend_from_slice(&byte_digits((*cell / 256) as u8))?;
    }
    out.push(b'\n')?;
    Ok(())
}

// Appends the lines of attributes.
pub(crate) fn push_attributes(out: &mut Vec<u8>, cells: &[u16]) -> Result<(), AllocError>
    requires { length cells.now ≡ CELLS }
    ensures { OnOk result (out.new.items ≡ out.old.items ++ cell_rows (flat_map cell_attribute) 25 cells.now) }
{
    let mut rest = cells;
    for _ in 0..ROWS {
        let (row, next) = rest.split_at(COLUMNS);
        push_attribute_row(out, row)?;
        rest = next;
    }
    Ok(())
}
