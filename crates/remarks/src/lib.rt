// What the programs remark to a person when they refuse: a refusal's meaning and its number, as a line.
#![tactic(auto)]

ghost use Rattle.std.specs.Prelude.{◌≡◌};
ghost use Rattle.words.specs.Line.{stands, ◌puts◌};
ghost use Rattle.remarks.specs.Said.{meaning, refused_of};

use words::Line;

// Both take a number and not a Refusal: what is said is promised of every number (`refused` in docs/PROMISES.md).

// The meaning of a refusal's number, and no text for one that is said elsewhere.
#[tactic(auto, unfolding(crate::specs::Said::meanings))]
fn meaning(number: u32) -> &'static [u8]
    ensures { result.now ≡ meaning number }
{
    match number {
        1 => b"the side is not 8, 16, 32, 64, 128 or 256",
        2 => b"levels go from 1 to 5, and to 2, 3 or 4 at side 8, 16 or 32",
        3 => b"a slice is not as long as the picture",
        4 => b"a wavelet number is beyond 262143",
        5 => b"more than 18 planes",
        6 => b"more bits than there is room for",
        7 => b"a label is eight characters, 0-9 or A-Z; leading zeros count",
        9 => b"the arm is 1 or 2, and a mount number at most 16777215",
        _ => b"",
    }
}

// The line of a refusal.
#[tactic(auto, unfolding(crate::specs::Said::refused_of))]
pub fn refused(number: u32, line: &mut Line<'_>)
    ensures same_room { line.new.bytes.ghost_name ≡ line.old.bytes.ghost_name }
    ensures line_value { refused_of number (stands line.old) ≡ stands line.new }
{
    line.put(b"REFUSED: ");
    line.put(meaning(number));
    line.put_figure(b" (", u64::from(number));
    line.put(b")\n");
}
