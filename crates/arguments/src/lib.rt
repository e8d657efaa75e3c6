// What a person gave a program on its command line: options, and numbers in digits.
#![tactic(auto)]

ghost use Rattle.std.specs.Prelude.{◌≡◌, ◌≤◌, length, IfSome};
ghost use Rattle.arguments.specs.Words.{is_option};

use std::env::{Env, FillError};
use words::Line;

// No label begins with a dash.
#[tactic(auto, unfolding(crate::specs::Words::is_option))]
pub fn is_option(word: &[u8]) -> bool
    ensures { result ≡ is_option word.now }
{
    word.starts_with(b"-")
}

// Argument i, read into the room, where it is not missing nor longer than that.
pub fn word<'a>(rt: &impl Env, i: usize, room: &'a mut [u8]) -> Option<&'a [u8]>
    ensures within { IfSome result (λ text. length text.now ≤ length room.old) }
{
    let count = rt.arg(i, room).ok()?;
    Some(&room[..count])
}

// Whether there is an argument i: a lent room of no bytes is too short for any but an empty one.
pub fn is_given(rt: &impl Env, i: usize) -> bool {
    !matches!(rt.arg(i, &mut []), Err(FillError::NotPresent))
}

// Argument i in digits, however many they are, read through lent room.
pub fn number(rt: &impl Env, i: usize, room: &mut [u8]) -> Option<u32> {
    pgm::whole_number(word(rt, i, room)?)
}

// The line of argument i that is no number. It is read again, through the room of its reading, which says whether all of it was
// read.
pub fn number_line(rt: &impl Env, i: usize, name: &[u8], room: &mut [u8], line: &mut Line<'_>)
    ensures same_room { line.new.bytes.ghost_name ≡ line.old.bytes.ghost_name }
    ensures same_length { length line.new.bytes.now ≡ length line.old.bytes.now }
{
    line.put(b"REFUSED: ");
    line.put(name);
    match rt.arg(i, room) {
        Err(FillError::TooLong) => {
            line.put_figure(b" has more than ", room.len() as u64);
            line.put(b" characters\n");
        }
        _ => line.put(b" is not written in digits alone\n"),
    }
}
