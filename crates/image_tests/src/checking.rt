ghost use Rattle.std.specs.Prelude.{◌<◌, ◌^◌, length};

use frame_tables::FrameTable;
use std::alloc::{AllocError, Global};
use std::test::Fail;
use tal_checker::check;
use tal_image::Image;
use tal_types::FrameRow;

fn push_numbers(file: &mut Vec<u8>, numbers: &[u32]) -> Result<(), AllocError> {
    for number in numbers {
        file.extend_from_slice(&number.to_le_bytes())?;
    }
    Ok(())
}

/// The file of the image of one function with this code. The seven parameters of its signature are junk, and the result is a
/// number.
fn file_of(alloc: Global, code: &[u8]) -> Result<Vec<u8>, AllocError>
    requires { length code.now < 2 ^ 32 }
{
    let length = code.len() as u32;
    let mut file = Vec::new(alloc);
    push_numbers(&mut file, &[0x4956_5256, 1, 64, 2, 1, 1])?;
    push_numbers(&mut file, &[0, 0, 0, 0, length, 0, 0])?;
    push_numbers(&mut file, &[9, 0, 9, 0, 9, 0, 9, 0, 9, 0, 9, 0, 9, 0, 0, 0])?;
    push_numbers(&mut file, &[length, 0, 0, 0])?;
    file.extend_from_slice(code)?;
    Ok(file)
}

#[test]
fn code_without_references_has_one_row(rt: HostRuntime) -> Result<(), Fail> {
    let file = file_of(rt.alloc(), &[0xB8, 7, 0, 0, 0, 0xC3])?;
    let image = Image::read(rt.alloc(), &file)?;
    let checked = check(rt.alloc(), image)?;
    assert_eq!(rt; checked.image().code().len(), 6);
    let frames: &FrameTable = checked.frames();
    assert_eq!(rt; frames.distinct(), 1);
    let empty = FrameRow {
        regs: 0,
        slots: 0,
        refs: 0,
    };
    for (pc, row) in [
        (0x10_0000, Some(empty)),
        (0x10_0001, None),
        (0x10_0005, Some(empty)),
    ] {
        assert_eq!(rt; frames.row(pc), row, "at {pc:X}");
    }
    Ok(())
}
