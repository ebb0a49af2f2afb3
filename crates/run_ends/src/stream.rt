// Reads a whole source, and writes bytes whole.
ghost use Rattle.std.specs.Prelude.{◌≡◌, ◌≤◌, ◌<◌, ◌+◌, ◌-◌, length, vec_len, IfOk, OnOk, OnErr, IsErrOf, IsTrue};
ghost use Rattle.std.specs.Io.KnownBytes.{Appends, IsAtEnd, Keeps};
ghost use Rattle.berth_face.specs.Causes.{Rose, HasCause};
ghost use Rattle.berth_face.specs.Streams.{ReadsAll, TakesAtMost, TakesCount, WritesFront};
ghost use Rattle.run_ends.specs.Source.{PassesAll, Took, TookMore};

use berth_face::{Failed, Sink, Source};
use std::alloc::{AllocError, Global};

/// The most bytes of a source.
pub const LONGEST_TEXT: usize = 16_777_216;

/// The bytes of a piece: enough to make a thread for each processor worth its start.
pub const PIECE: usize = 2_097_152;

/// The most bytes of one read.
const CHUNK: usize = 65_536;

#[derive(Clone, Copy, Debug, PartialEq, Eq)]
pub enum SourceError {
    Failed,
    TooLong,
    NoMemory,
}

fn make_chunk(alloc: Global) -> Result<Vec<u8>, AllocError>
    ensures { IfOk result (λ chunk. vec_len chunk ≡ CHUNK) }
{
    vec![in alloc; 0u8; CHUNK]
}

/// Reads all bytes of a source. TooLong once it has a byte too many; it takes no byte after that.
pub fn read_all<S: Source>(alloc: Global, source: &mut S) -> Result<Vec<u8>, SourceError>
    ensures read { IfOk result (λ text. ReadsAll (S.left source.old) (S.left source.new) text.items) }
    ensures small { IfOk result (λ text. vec_len text ≤ LONGEST_TEXT) }
    ensures too_long { IsErrOf result SourceError.TooLong
        → TakesCount (S.left source.old) (S.left source.new) (LONGEST_TEXT + 1) }
    ensures takes { ¬ IsErrOf result SourceError.TooLong
        → TakesAtMost (S.left source.old) (S.left source.new) LONGEST_TEXT }
    ensures failed { IsErrOf result SourceError.Failed → Rose (S.faults source.old) (S.faults source.new) }
    ensures later { S.faults source.old ≤ S.faults source.new }
{
    let Ok(mut chunk) = make_chunk(alloc) else {
        return Err(SourceError::NoMemory);
    };
    let mut text = Vec::new(alloc);
    while text.len() <= LONGEST_TEXT {
        let room = CHUNK.min(LONGEST_TEXT + 1 - text.len());
        let count = match take_more(source, &mut chunk[..room], &mut text) {
            Ok(count) => count,
            Err(error) => return Err(error),
        };
        if count == 0 {
            return Ok(text);
        }
    }
    Err(SourceError::TooLong)
}

/// Appends the next bytes of a source to `text`: a piece, or all that are left. `passed` bytes were taken before. Gives
/// whether the source is at its end. TooLong at the first byte past the limit; it takes no byte after that.
pub fn read_piece<S: Source>(
    alloc: Global,
    source: &mut S,
    passed: usize,
    text: &mut Vec<u8>,
) -> Result<bool, SourceError>
    requires { passed + vec_len text.old ≤ LONGEST_TEXT }
    ensures took { IfOk result (λ _. Took (S.left source.old) (S.left source.new) text.old.items text.new.items) }
    ensures ended { IfOk result (λ ended. IsTrue ended → IsAtEnd (S.left source.new)) }
    ensures more { IfOk result (λ ended. ¬ IsTrue ended → vec_len text.old + PIECE ≤ vec_len text.new) }
    ensures small { IfOk result (λ _. passed + vec_len text.new ≤ LONGEST_TEXT) }
    ensures too_long { IsErrOf result SourceError.TooLong
        → TakesCount (S.left source.old) (S.left source.new) (LONGEST_TEXT + 1 - passed - vec_len text.old) }
    ensures takes { ¬ IsErrOf result SourceError.TooLong
        → TakesAtMost (S.left source.old) (S.left source.new) (LONGEST_TEXT - passed - vec_len text.old) }
    ensures failed { IsErrOf result SourceError.Failed → Rose (S.faults source.old) (S.faults source.new) }
    ensures later { S.faults source.old ≤ S.faults source.new }
{
    let Ok(mut chunk) = make_chunk(alloc) else {
        return Err(SourceError::NoMemory);
    };
    let full = text.len() + PIECE;
    while text.len() < full {
        let room = CHUNK.min(LONGEST_TEXT + 1 - passed - text.len());
        let count = match take_more(source, &mut chunk[..room], text) {
            Ok(count) => count,
            Err(error) => return Err(error),
        };
        if count == 0 {
            return Ok(true);
        }
        if passed + text.len() > LONGEST_TEXT {
            return Err(SourceError::TooLong);
        }
    }
    Ok(false)
}

/// Reads a source to its end, and drops the bytes. `passed` bytes were taken before.
pub fn pass_rest<S: Source>(alloc: Global, source: &mut S, passed: usize) -> Result<(), SourceError>
    requires { passed ≤ LONGEST_TEXT }
    ensures read { OnOk result (PassesAll (S.left source.old) (S.left source.new) (LONGEST_TEXT - passed)) }
    ensures too_long { IsErrOf result SourceError.TooLong
        → TakesCount (S.left source.old) (S.left source.new) (LONGEST_TEXT + 1 - passed) }
    ensures takes { ¬ IsErrOf result SourceError.TooLong
        → TakesAtMost (S.left source.old) (S.left source.new) (LONGEST_TEXT - passed) }
    ensures failed { IsErrOf result SourceError.Failed → Rose (S.faults source.old) (S.faults source.new) }
    ensures later { S.faults source.old ≤ S.faults source.new }
{
    let Ok(mut chunk) = make_chunk(alloc) else {
        return Err(SourceError::NoMemory);
    };
    let mut text = Vec::new(alloc);
    let mut taken = passed;
    while taken <= LONGEST_TEXT {
        text.clear();
        let room = CHUNK.min(LONGEST_TEXT + 1 - taken);
        let count = match take_more(source, &mut chunk[..room], &mut text) {
            Ok(count) => count,
            Err(error) => return Err(error),
        };
        if count == 0 {
            return Ok(());
        }
        taken += count;
    }
    Err(SourceError::TooLong)
}

/// Appends the bytes of one read to `text`. Memory is taken first, so that no byte is lost.
fn take_more<S: Source>(
    source: &mut S,
    room: &mut [u8],
    text: &mut Vec<u8>,
) -> Result<usize, SourceError>
    requires { 0 < length room.old }
    ensures took { IfOk result (λ n.
        TookMore (S.left source.old) (S.left source.new) text.old.items text.new.items n (length room.old)) }
    ensures end { IfOk result (λ n. n ≡ 0 → IsAtEnd (S.left source.new)) }
    ensures err { OnErr result (Keeps (S.left source.old) (S.left source.new)) }
    ensures not_long { ¬ IsErrOf result SourceError.TooLong }
    ensures failed { IsErrOf result SourceError.Failed → Rose (S.faults source.old) (S.faults source.new) }
    ensures later { S.faults source.old ≤ S.faults source.new }
{
    if text.reserve(room.len()).is_err() {
        return Err(SourceError::NoMemory);
    }
    let Ok(count) = source.take(room) else {
        return Err(SourceError::Failed);
    };
    text.extend_from_slice(&room[..count]).unwrap();
    Ok(count)
}

/// Writes all bytes. After Err a prefix of them was written.
pub fn write_all<K: Sink>(piece: &[u8], sink: &mut K) -> Result<(), Failed>
    ensures written { OnOk result (Appends (K.written sink.old) (K.written sink.new) piece.now) }
    ensures front { WritesFront (K.written sink.old) (K.written sink.new) piece.now }
    ensures cause { HasCause (K.faults sink.old) (K.faults sink.new) result }
{
    let mut rest = piece;
    while !rest.is_empty() {
        let count = sink.put(rest)?;
        rest = &rest[count..];
    }
    Ok(())
}
