// The texts of a run: its report, its journal and its summary.
//
// A machine is `Shown` where it tells its registers, its stacks, its statics and its screen. `report` writes these with the end of
// the run (`RunEnd`) and its turns, `journal_text` the entries of its journal, and `summary_text` how many entries there are of
// each kind. `ReportText`, `JournalText` and `SummaryText` (in specs/) are the texts; `shown_of` is what a state of the typed
// machine shows.
//
// `Turn` and `RunEnd`, what a turn and a run answer, stand here for all machines whose runs are told.
#![tactic(auto)]

mod entry_lines;
mod number_text;
mod report_text;
mod run_end;
mod screen_text;
mod shown;
mod summary_lines;
mod turn;

pub use entry_lines::journal_text;
pub use report_text::report;
pub use run_end::RunEnd;
pub use shown::Shown;
pub use summary_lines::summary_text;
pub use turn::Turn;
