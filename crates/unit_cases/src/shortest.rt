// A unit that is put together of its rows, and not read.
use no_memory::NoMemory;
use std::alloc::Global;
use tal_syntax::Name;
use tal_types::{Sig, Ty};
use unit_files::{Unit, UnitFun, UnitRows, UnitSig};

/// The unit of the text `sig s () num`, `func f s`, `ret`, `end`, put together of its rows.
pub fn shortest(alloc: Global) -> Result<Unit, NoMemory> {
    let mut names = Vec::new(alloc);
    names.push(Name::of(alloc, b"s")?)?;
    names.push(Name::of(alloc, b"f")?)?;
    let mut sigs = Vec::new(alloc);
    sigs.push(UnitSig {
        name: 0,
        ext: false,
        sig: Sig {
            params: [Ty::Junk; 7],
            result: Ty::Num,
        },
    })?;
    let mut functions = Vec::new(alloc);
    functions.push(UnitFun {
        name: 1,
        ext: false,
        length: 1,
        sig: 0,
    })?;
    let mut code = Vec::new(alloc);
    code.push(0xC3)?;
    let rows = UnitRows {
        heap_words: 0,
        stacks: 0,
        names,
        sigs,
        functions,
        entries: Vec::new(alloc),
        classes: Vec::new(alloc),
        kinds: Vec::new(alloc),
        statics: Vec::new(alloc),
        arrays: Vec::new(alloc),
        code,
        blocks: Vec::new(alloc),
        marks: Vec::new(alloc),
        fixups: Vec::new(alloc),
    };
    Unit::of(alloc, rows)
}
