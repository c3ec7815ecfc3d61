// The code of a unit: the lines of its functions become bytes, blocks, marks and fix-ups.
//
// `UnitCode` is what the functions so far have made. `UnitCode::with_function` takes the lines of one more: it goes over them
// once to see where the labels are, and once more to spell the instructions. Each is in canonical spelling, with 0 in the words
// that are left to the linker. A line that cannot be assembled is told with the least code of its faults.
//
// `function_code` (in specs/) is what a function's lines make; `holed_code` are an instruction's bytes. The module `laws` has what
// holds of the definitions alone.
#![tactic(auto)]

mod functions;
mod holes;
mod labels;
pub mod laws;
mod unit_code;

pub use functions::has_code;
pub use unit_code::{CodeRows, UnitCode};
