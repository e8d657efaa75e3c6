// L levels of a square in Z order, in lent memory. The upper left quarter is the first quarter of the places, so the next
// level is the same work on a part of the slice. Forward and back stay two of each: every one is a definition of the paper
// (`level_forward`, `levels_back` and their like), and they differ in the order of their steps.
#![tactic(auto)]

ghost use Rattle.std.specs.Prelude.{◌≡◌, ◌^◌, ◌<◌, ◌≤◌, true, false, length};
ghost use Rattle.paper.specs.Line.{line_forward, line_back};
ghost use Rattle.paper.specs.Square.{along, level_forward, level_back, levels_forward, levels_back};
ghost use Rattle.line.specs.Each.{Each, line_limit};
ghost use Rattle.square_laws.specs.Near.{grown};
ghost use Rattle.levels.specs.Level.{Fitting, forth};

use pass::Lines;
use sizes::Size;

// Room for two lines of the largest side: one as it was, and the same turned.
const ROOM: usize = 2 << sizes::MOST_SIZE;

// One level forward: every row, then every column.
#[tactic(auto, unfolding(paper::specs::Square::level_forward))]
fn level_forward(size: Size, xs: &mut [i32], room: &mut [i32; ROOM])
    requires size_nonzero { 0 < size }
    requires xs_len { length xs.old ≡ 4 ^ size }
    requires each { Each line_limit xs.old }
    requires each_2 { Each line_limit (along line_forward size false xs.old) }
    ensures { xs.new ≡ level_forward line_forward size xs.old }
{
    let s = size.side();
    let (line, turned) = room[..2 * s].split_at_mut(s);
    pass::turn_lines(size, Lines::Rows, line::forward, xs, line, turned);
    pass::turn_lines(size, Lines::Columns, line::forward, xs, line, turned);
}

// One level back: every column, then every row.
#[tactic(auto, unfolding(paper::specs::Square::level_back))]
fn level_back(size: Size, xs: &mut [i32], room: &mut [i32; ROOM])
    requires size_nonzero { 0 < size }
    requires xs_len { length xs.old ≡ 4 ^ size }
    requires each { Each line_limit xs.old }
    requires each_2 { Each line_limit (along line_back size true xs.old) }
    ensures { xs.new ≡ level_back line_back size xs.old }
{
    let s = size.side();
    let (line, turned) = room[..2 * s].split_at_mut(s);
    pass::turn_lines(size, Lines::Columns, line::back, xs, line, turned);
    pass::turn_lines(size, Lines::Rows, line::back, xs, line, turned);
}

// Forward: one level, then those of the upper left quarter.
fn forward_in(size: Size, levels: u32, xs: &mut [i32], room: &mut [i32; ROOM])
    requires levels_le_size { levels ≤ size }
    requires xs_len { length xs.old ≡ 4 ^ size }
    requires fitting { Fitting forth levels xs.old }
    ensures { xs.new ≡ levels_forward line_forward levels size xs.old }
{
    if levels == 0 {
        return;
    }
    let q = xs.len() / 4;
    level_forward(size, xs, room);
    forward_in(size.half(), levels - 1, &mut xs[..q], room);
}

// Back: the levels of the upper left quarter, then the one that was first.
fn back_in(size: Size, levels: u32, xs: &mut [i32], room: &mut [i32; ROOM])
    requires levels_le_size { levels ≤ size }
    requires xs_len { length xs.old ≡ 4 ^ size }
    requires fitting { Fitting grown levels xs.old }
    ensures { xs.new ≡ levels_back line_back levels size xs.old }
{
    if levels == 0 {
        return;
    }
    let q = xs.len() / 4;
    back_in(size.half(), levels - 1, &mut xs[..q], room);
    level_back(size, xs, room);
}

// The levels forward.
pub fn forward(size: Size, levels: u32, xs: &mut [i32])
    requires levels_le_size { levels ≤ size }
    requires xs_len { length xs.old ≡ 4 ^ size }
    requires fitting { Fitting forth levels xs.old }
    ensures { xs.new ≡ levels_forward line_forward levels size xs.old }
{
    forward_in(size, levels, xs, &mut [0; ROOM]);
}

// The levels back.
pub fn back(size: Size, levels: u32, xs: &mut [i32])
    requires levels_le_size { levels ≤ size }
    requires xs_len { length xs.old ≡ 4 ^ size }
    requires fitting { Fitting grown levels xs.old }
    ensures { xs.new ≡ levels_back line_back levels size xs.old }
{
    back_in(size, levels, xs, &mut [0; ROOM]);
}
