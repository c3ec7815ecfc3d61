// Bytes through a reader or a writer, all of them: what each read and write answered decides. The loops are proved for
// readers and writers whose bytes are known.
ghost use Rattle.std.specs.Prelude.{◌≡◌, ◌≤◌, ◌<◌, ◌+◌, ◌++◌, ◌↔◌, IfOk, IsOkAnd, IfSome, IsErr, IsErrOf, IsTrue, vec_len, length, take};
ghost use Rattle.std.specs.Io.KnownBytes.{Appends};
ghost use Rattle.outside.specs.Transfer.{TakesPiece, taken, AppendsFront, CreatedTakes};

use crate::ReadAnswer;
use std::alloc::Global;
use std::io;
use std::io::{Read, Write};

// How many bytes one read asks for at most.
const PIECE: usize = 4096;

// Puts what a read gave, the first bytes of this piece, behind those that are there, and answers how many came.
fn keep_piece(
    given: io::Result<usize>,
    piece: &[u8],
    bytes: &mut Vec<u8>,
) -> Result<usize, ReadAnswer>
    requires { IfOk given (λ count. count ≤ length piece.now) }
    ensures failed { IsErrOf result ReadAnswer.Failed ↔ IsErr given }
    ensures count { IfOk result (λ count. IsOkAnd given (λ came. count ≡ came)) }
    ensures bytes { IfOk result (λ count. bytes.new.items ≡ bytes.old.items ++ take count piece.now) }
{
    let Ok(count) = given else {
        return Err(ReadAnswer::Failed);
    };
    if bytes.extend_from_slice(&piece[..count]).is_err() {
        return Err(ReadAnswer::NoMemory);
    }
    Ok(count)
}

// One read of at most `most` bytes, which go behind those that are there. Answers how many came.
fn read_piece<R: Read>(from: &mut R, bytes: &mut Vec<u8>, most: usize) -> Result<usize, ReadAnswer>
    requires { 0 < most }
    ensures at_most { IfOk result (λ count. count ≤ most) }
    ensures takes { IfOk result (TakesPiece (R.remaining from.old) (R.remaining from.new) bytes.old.items bytes.new.items) }
{
    let mut piece = [0u8; PIECE];
    let want = most.min(PIECE);
    let given = from.read(&mut piece[..want]);
    keep_piece(given, &piece[..want], bytes)
}

// The first `limit` bytes that a reader gives, or all. A read that gives nothing is the end.
fn read_front<R: Read>(alloc: Global, from: &mut R, limit: usize) -> Result<Vec<u8>, ReadAnswer>
    ensures at_most { IfOk result (λ v. vec_len v ≤ limit) }
    ensures front { IfOk result (λ v. IfSome (R.remaining from.old) (λ left. v.items ≡ take limit left)) }
{
    let mut bytes = Vec::new(alloc);
    while bytes.len() < limit {
        let most = limit - bytes.len();
        if read_piece(from, &mut bytes, most)? == 0 {
            break;
        }
    }
    Ok(bytes)
}

// The first `limit` bytes of a file, or all, where it was opened.
pub(crate) fn read_opened<F: Read + Drop>(
    alloc: Global,
    opened: io::Result<F>,
    limit: usize,
) -> Result<Vec<u8>, ReadAnswer>
    ensures unopened { IsErr opened → IsErrOf result ReadAnswer.Failed }
    ensures at_most { IfOk result (λ v. vec_len v ≤ limit) }
    ensures front { IfOk result (λ v. IsOkAnd opened (λ file. IfSome (F.remaining file) (λ left. v.items ≡ take limit left))) }
{
    match opened {
        Ok(mut file) => read_front(alloc, &mut file, limit),
        Err(_) => Err(ReadAnswer::Failed),
    }
}

// How many bytes a write of some bytes took. One that took nothing has failed.
fn count_taken(given: io::Result<usize>) -> Option<usize>
    ensures { result ≡ taken given }
{
    match given {
        Ok(0) => None,
        Ok(count) => Some(count),
        Err(_) => None,
    }
}

// Writes all these bytes, and says whether they went through.
pub(crate) fn write_whole<W: Write>(to: &mut W, bytes: &[u8]) -> bool
    ensures whole { IsTrue result → Appends (W.contents to.old) (W.contents to.new) bytes.now }
    ensures front { AppendsFront (W.contents to.old) (W.contents to.new) bytes.now }
{
    let mut rest = bytes;
    while !rest.is_empty() {
        let Some(count) = count_taken(to.write(rest)) else {
            return false;
        };
        rest = &rest[count..];
    }
    true
}

// Writes all these bytes to a file, where it was created, and says whether they went through.
pub(crate) fn write_created<F: Write>(created: &mut io::Result<F>, bytes: &[u8]) -> bool
    ensures { IsTrue result → CreatedTakes F.contents created.old created.new bytes.now }
{
    match created {
        Ok(file) => write_whole(file, bytes),
        Err(_) => false,
    }
}
