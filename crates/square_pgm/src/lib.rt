// Squares of side 2 ^ k as PGM: a picture's k from a header's width and height, and a header from the k of what is shown.
#![tactic(auto)]

ghost use Rattle.std.specs.Prelude.{◌≡◌, ◌<◌, unwrap_or, IfSome};
ghost use Rattle.words.specs.Line.{stands};
ghost use Rattle.square_pgm.specs.Sides.{shown_size, side_of};
ghost use Rattle.square_pgm.specs.Text.{headed};

use sizes::Size;
use words::Line;

// The largest k that the programs' buffers hold.
pub const MOST_HELD: u32 = 6;

// k from 3 to 6 with width = height = 2 ^ k, if it is such a square.
#[tactic(auto, unfolding(crate::specs::Sides::side_of, crate::specs::Sides::size_among))]
pub fn side_of(width: u32, height: u32) -> Option<u32>
    ensures value { unwrap_or result 0 ≡ side_of width height }
    ensures some { IfSome result (λ k. 0 < k) }
{
    if width != height {
        return None;
    }
    match width {
        8 => Some(3),
        16 => Some(4),
        32 => Some(5),
        64 => Some(6),
        _ => None,
    }
}

// Whether the square is one that is shown: k from 1 to 6.
#[tactic(auto, unfolding(crate::specs::Sides::shown_size))]
fn is_shown(k: u32) -> bool
    ensures { result ≡ shown_size k }
{
    (1..=MOST_HELD).contains(&k)
}

// The header of a square of side 2 ^ k, k from 1 to 6, with a promise in its comment. Else nothing is written.
#[tactic(auto, unfolding(crate::specs::Sides::shown_size, crate::specs::Text::headed))]
pub fn write_header(k: u32, promise: &[u8], line: &mut Line<'_>)
    ensures same_room { line.new.bytes.ghost_name ≡ line.old.bytes.ghost_name }
    ensures line_value { headed k promise.now (stands line.old) ≡ stands line.new }
{
    if !is_shown(k) {
        return;
    }
    let side = Size::new(k).side() as u64;
    line.put(b"P5\n# ");
    line.put(promise);
    line.put_figure(b"\n", side);
    line.put_figure(b" ", side);
    line.put(b"\n255\n");
}
