// Small formats: numbers within limits, and numbers that rise.
ghost use Rattle.file_fields.specs.Grammar.{between, checked};

use file_fields::{ImageFault, Reader, Row, RowAfter, put_counted, read_whole};
use std::alloc::Global;
use std::test::*;

/// The least number and the highest.
#[derive(Drop)]
struct Limits {
    low: u32,
    high: u32,
}

impl Row<Limits> for u32 {
    ghost fields = { λ l. checked (between l.low l.high) 7 };

    fn read(_alloc: Global, reader: &mut Reader<'_>, limits: &Limits) -> Result<u32, ImageFault> {
        reader.ranged(limits.low, limits.high, 7)
    }
}

impl RowAfter<Limits, u32> for u32 {
    ghost use Rattle.std.specs.Prelude.{◌+◌};

    ghost fields = { λ l later least. checked (between least 9) 8 };

    ghost after = { λ least n. n + 1 };

    fn read(
        _alloc: Global,
        reader: &mut Reader<'_>,
        _limits: &Limits,
        _later: u32,
        kept: &mut u32,
    ) -> Result<u32, ImageFault> {
        let least = *kept;
        let number = reader.ranged(least, 9, 8)?;
        *kept = number + 1;
        Ok(number)
    }
}

const LIMITS: Limits = Limits { low: 1, high: 3 };

#[test]
fn rows_are_read_to_the_first_fault(rt: HostRuntime) -> Result<(), Fail> {
    let file = [2, 0, 0, 0, 3, 0, 0, 0, 4, 0, 0, 0, 1, 0];
    let mut reader = Reader::new(&file);
    let rows = reader.rows::<Limits, u32>(rt.alloc(), &LIMITS, 2)?;
    assert_eq!(rt; rows.as_slice(), [2, 3].as_slice());
    let next = reader.rows::<Limits, u32>(rt.alloc(), &LIMITS, 1);
    assert_eq!(rt; next.err(), Some(ImageFault::Bad { at: 8, field: 7 }));
    let last = reader.rows::<Limits, u32>(rt.alloc(), &LIMITS, 1);
    assert_eq!(rt; last.err(), Some(ImageFault::Short { at: 14 }));
    Ok(())
}

#[test]
fn rows_look_at_those_before_them(rt: HostRuntime) -> Result<(), Fail> {
    let file = [4, 0, 0, 0, 6, 0, 0, 0];
    let mut reader = Reader::new(&file);
    let rows = reader.rows_after::<Limits, u32, u32>(rt.alloc(), &LIMITS, 2, 0)?;
    assert_eq!(rt; rows.as_slice(), [4, 6].as_slice());
    let mut again = Reader::new(&file);
    let refused = again.rows_after::<Limits, u32, u32>(rt.alloc(), &LIMITS, 2, 5);
    assert_eq!(rt; refused.err(), Some(ImageFault::Bad { at: 0, field: 8 }));
    Ok(())
}

#[test]
fn a_whole_file_is_one_number(rt: HostRuntime) -> Result<(), Fail> {
    let number = read_whole::<Limits, u32>(rt.alloc(), &[2, 0, 0, 0], &LIMITS)?;
    assert_eq!(rt; number, 2);
    let short = read_whole::<Limits, u32>(rt.alloc(), &[2, 0, 0], &LIMITS);
    assert_eq!(rt; short.err(), Some(ImageFault::Short { at: 3 }));
    let bad = read_whole::<Limits, u32>(rt.alloc(), &[4, 0, 0, 0, 9], &LIMITS);
    assert_eq!(rt; bad.err(), Some(ImageFault::Bad { at: 0, field: 7 }));
    let rest = read_whole::<Limits, u32>(rt.alloc(), &[3, 0, 0, 0, 9], &LIMITS);
    assert_eq!(rt; rest.err(), Some(ImageFault::Rest { at: 4 }));
    Ok(())
}

#[test]
fn numbers_stand_behind_their_count(rt: HostRuntime) -> Result<(), Fail> {
    let mut file = vec![in rt.alloc(); 7u8]?;
    put_counted::<Limits, u32>(&mut file, &[5, 258])?;
    let bytes = [7, 2, 0, 0, 0, 5, 0, 0, 0, 2, 1, 0, 0];
    assert_eq!(rt; file.as_slice(), bytes.as_slice());
    Ok(())
}
