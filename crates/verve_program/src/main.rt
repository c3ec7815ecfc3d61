// The program: the top call over real files and the standard streams. Its exit status is the number of the call's status.
#![tactic(auto)]

use no_memory::NoMemory;
use nucleus_calls::Journal;
use outside::{Sink, StreamSink, SystemFiles};
use std::alloc::Global;
use std::process::ExitCode;
use std::{env, io};
use verve_tool::{Status, verve};

// The words after the program's own name. Where one of them is not text they are no command, as no words are; the only other
// failure is want of memory.
fn read_words(rt: HostRuntime, alloc: Global) -> Result<Vec<String>, NoMemory> {
    let mut words = Vec::new(alloc);
    match env::args(&rt) {
        Ok(given) => {
            for word in given.skip(1) {
                words.push(word)?;
            }
            Ok(words)
        }
        Err(fault) if fault.kind() == io::ErrorKind::InvalidData => Ok(words),
        Err(_) => Err(NoMemory),
    }
}

fn main(rt: HostRuntime) -> ExitCode {
    let alloc = rt.alloc();
    let mut err = StreamSink::new(rt.stderr());
    let Ok(words) = read_words(rt, alloc) else {
        let _ = err.put(b"no memory\n");
        return ExitCode::from(Status::NoMemory.number());
    };
    let mut files = SystemFiles::new(rt);
    let mut out = StreamSink::new(rt.stdout());
    let mut journal = Journal::new(alloc);
    let mut kept = None;
    let status = verve(
        alloc,
        &words,
        &mut files,
        &mut out,
        &mut err,
        &mut journal,
        &mut kept,
    );
    ExitCode::from(status.number())
}
