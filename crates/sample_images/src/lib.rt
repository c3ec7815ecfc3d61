// Texts of programs that show what a kernel and its applications can do.
//
// `kernel_source` and `app_source` are a kernel and two applications that share a semaphore: three units that are linked.
// `stress_source` is a program in one unit whose applications allocate for ever, as numbers tell that follow from a seed. Its
// text is `StressText` (in specs/).
#![tactic(auto)]

mod sample_texts;
mod stress_text;

pub use sample_texts::{APP_1, APP_2, KERNEL, app_source, kernel_source};
pub use stress_text::{STRESS_HEAD, STRESS_TAIL, stress_source};
