// The image of the tests, and its file.
use std::alloc::{AllocError, Global};

/// What stands before the code. 64 heap words and two stacks, how many rows each table has, the length of the code, a block
/// and four marks. Two signatures: seven times junk with a number as the result, and seven times a number with a reference
/// to class 0. A function of each, 6 and 21 bytes long, the first one the entry of both stacks. A class with a number and
/// function 1, and one below it with a reference to class 0 and functions 1 and 0. A kind of numbers; a static for null or a
/// function of signature 1; an array of the numbers 7 and 8.
const TABLES: [u32; 72] = [
    0x49565256, 1, 64, 2, 2, 2, 2, 1, 1, 1, 27, 1, 4, 9, 0, 9, 0, 9, 0, 9, 0, 9, 0, 9, 0, 9, 0, 0,
    0, 0, 0, 0, 0, 0, 0, 0, 0, 0, 0, 0, 0, 0, 0, 1, 0, 6, 0, 21, 1, 0, 0, 0, 1, 0, 0, 1, 1, 1, 1,
    1, 0, 2, 1, 0, 0, 0, 5, 1, 0, 2, 7, 8,
];

/// MOV EAX, 7 and RET; then four times MOV EAX, with function 0, the table of class 1, the data array and null, and RET.
pub(crate) const CODE: [u8; 27] = [
    0xB8, 7, 0, 0, 0, 0xC3, 0xB8, 0, 0, 0x10, 0, 0xB8, 0, 1, 0x20, 0, 0xB8, 4, 0, 0x30, 0, 0xB8, 0,
    0, 0, 0, 0xC3,
];

/// What is said of the code: a block at the second MOV of function 1, with numbers in all registers and one slot of junk,
/// and a mark of each MOV of function 1.
const SAID: [u32; 30] = [
    11, 0, 0, 0, 0, 0, 0, 0, 0, 0, 0, 0, 0, 0, 0, 1, 9, 0, 6, 6, 0, 11, 7, 1, 16, 10, 0, 21, 1, 0,
];

/// Puts numbers at the end of a file.
fn put(file: &mut Vec<u8>, numbers: &[u32]) -> Result<(), AllocError> {
    for number in numbers {
        file.extend_from_slice(&number.to_le_bytes())?;
    }
    Ok(())
}

/// The image's file.
pub(crate) fn file(alloc: Global) -> Result<Vec<u8>, AllocError> {
    let mut file = Vec::new(alloc);
    put(&mut file, &TABLES)?;
    file.extend_from_slice(&CODE)?;
    put(&mut file, &SAID)?;
    Ok(file)
}
