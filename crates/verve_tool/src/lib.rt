// The tool's top call, and what it promises.
//
// `verve` does what the words of a command line say, over files and sinks that it is given, and answers a `Status`, whose
// number is the program's exit status. `run` and `journal` run an image, and leave the journal of the run and the machine that
// ran; `check` tells whether an image is accepted, `list` prints the listing of an image, and `asm` writes the unit of a text;
// none of these runs anything.
//
// `Outcome` (in specs/) says what a call came to: the words are no command, or the command ended in one of five ways. All that
// is said of one command stands in a record of the type `Form`: its words, the causes by which its files can stop it, of which
// the first that holds decides, the file that it writes, and what it did. `Leaves` is what any command leaves.
//
// A further command is a module here with its `act_..` and a file in specs/ with its form. It has a line in `read_words`, the list
// of words; a variant of `Command` and of `Request`, with a line each in `act`, `request_of` and `form_of`; and a row in
// docs/program.md. One that writes a file names it in `writes`; one that stops by a cause of its own has a row each of `Cause`,
// `status_of` and `Holds`, and its line in complaint.rt. specs/Assembling.antt is an example.
#![tactic(auto)]

mod assembling;
mod checks;
mod command;
mod complaint;
pub mod laws;
mod listings;
mod load;
mod putting;
mod runs;
mod status;
mod stop;
mod words;

pub use command::verve;
pub use status::Status;
