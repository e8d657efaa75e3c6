// Whole reads and writes that go straight to the bytes lent: they have no buffer of their own, so that a program's
// memory is what its own buffers say. Nothing is tried again. A loop here counts no index: `done` grows by what a call took.
#![tactic(auto)]

ghost use Rattle.std.specs.Prelude.{◌≡◌, ◌<◌, ◌≤◌, ℕ, length, take, IfOk, OnOk};
ghost use Rattle.std.specs.Io.KnownBytes.{Appends, Consumes, IsAtEnd};
ghost use Rattle.pipes.specs.Came.{came};

use std::io;
use std::io::{ErrorKind, Read, Write};

// A read failed, and so many bytes had come before.
#[derive(Clone, Copy, Debug, PartialEq, Eq)]
pub struct ReadFailed {
    pub count: usize,
}

// Reads until the room is full, the input ends or a read fails, and answers how many bytes came.
pub fn read_all<R: Read>(from: &mut R, room: &mut [u8]) -> Result<usize, ReadFailed>
    ensures within { came result ≤ length room.new }
    ensures front { came result ≡ length (take (came result) room.new) }
    ensures bytes { Consumes (R.remaining from.old) (R.remaining from.new) (take (came result) room.new) }
    ensures end { IfOk result (λ count. count < length room.new → IsAtEnd (R.remaining from.new)) }
{
    let mut done = 0;
    // no range to go over: each call says how much it took
    while done < room.len() {
        match from.read(&mut room[done..]) {
            Ok(0) => return Ok(done),
            Ok(count) => done += count,
            Err(_) => return Err(ReadFailed { count: done }),
        }
    }
    Ok(done)
}

// Writes all of the bytes; where a write fails, some of them may have been written, from the first on.
pub fn write_all<W: Write>(to: &mut W, bytes: &[u8]) -> io::Result<()>
    ensures all { OnOk result (Appends (W.contents to.old) (W.contents to.new) bytes.now) }
    ensures front { (n : ℕ) × (n ≤ length bytes.now) × Appends (W.contents to.old) (W.contents to.new) (take n bytes.now) }
{
    let mut done = 0;
    // no range to go over: each call says how much it took
    while done < bytes.len() {
        let count = to.write(&bytes[done..])?;
        if count == 0 {
            return Err(ErrorKind::WriteZero.into());
        }
        done += count;
    }
    Ok(())
}

// Writes the first `count` bytes; it fails where there are fewer, and has written none, or where a write fails.
pub fn write_front<W: Write>(to: &mut W, bytes: &[u8], count: usize) -> io::Result<()>
    ensures all { OnOk result (Appends (W.contents to.old) (W.contents to.new) (take count bytes.now)) }
    ensures enough { OnOk result (count ≤ length bytes.now) }
    ensures front { (n : ℕ) × (n ≤ count) × Appends (W.contents to.old) (W.contents to.new) (take n bytes.now) }
{
    let front = bytes.get(..count).ok_or(ErrorKind::InvalidInput)?;
    write_all(to, front)
}
