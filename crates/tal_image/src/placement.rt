// Where functions and data arrays lie in memory.
ghost use Rattle.std.specs.Prelude.{◌≡◌, ◌≤◌, ◌+◌, map, IfOk};
ghost use Rattle.std.specs.List.{sum_by};
ghost use Rattle.object_layout.specs.Areas.{code_start};
ghost use Rattle.tal_image.specs.Conditions.{fun_rows, array_room, most_code, most_words};
ghost use Rattle.tal_image.specs.Kept.{array_offsets, data_place};

use crate::parts::{ArrayPart, FunctionPart};
use no_memory::NoMemory;
use object_layout::FunRow;
use object_layout::areas::{CODE_START, STATICS_START};
use std::alloc::Global;

/// The functions with their addresses.
pub(crate) fn fun_rows(alloc: Global, functions: &[FunctionPart]) -> Result<Vec<FunRow>, NoMemory>
    requires { sum_by (λ f. f.length) functions.now ≤ most_code }
    ensures { IfOk result (λ funs. funs.items ≡ fun_rows code_start functions.now) }
{
    let mut funs = Vec::with_capacity(alloc, functions.len())?;
    let mut address: u32 = CODE_START;
    for function in functions {
        funs.push(FunRow {
            sig: function.sig,
            address,
        })?;
        address += function.length;
    }
    Ok(funs)
}

/// The addresses of functions, which have these rows.
pub(crate) fn addresses(alloc: Global, funs: &[FunRow]) -> Result<Vec<u32>, NoMemory>
    ensures { IfOk result (λ starts. starts.items ≡ map (λ f. f.address) funs.now) }
{
    let starts = funs.iter().map(|f| f.address).collect(alloc)?;
    Ok(starts)
}

/// Where the data arrays begin, in words from the first.
pub(crate) fn array_offsets(alloc: Global, arrays: &[ArrayPart]) -> Result<Vec<u32>, NoMemory>
    requires { sum_by array_room arrays.now ≤ most_words }
    ensures { IfOk result (λ offsets. offsets.items ≡ array_offsets 0 arrays.now) }
{
    let mut offsets = Vec::with_capacity(alloc, arrays.len())?;
    let mut offset: u32 = 0;
    for array in arrays {
        offsets.push(offset)?;
        offset += 2 + array.size;
    }
    Ok(offsets)
}

/// The address of the data array that begins at a word behind so many statics.
pub(crate) fn data_place(statics: u32, offset: u32) -> u32
    requires { statics + offset ≤ most_words }
    ensures { result ≡ data_place statics offset }
{
    STATICS_START + 4 * (statics + offset)
}
