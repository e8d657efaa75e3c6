// The decoder's walk over planes: the rest behind the first set, one plane, and the planes from the highest on until a
// bit is missing.
#![tactic(auto)]

ghost use Rattle.std.specs.Prelude.{suc, ◌+◌, ◌^◌, ◌<◌, ◌≤◌, length};
ghost use Rattle.paper.specs.Sizes.{most_planes};
ghost use Rattle.paper.specs.Walk.{Decoder, walk_rest, walk_plane, walk_planes};
ghost use Rattle.walk_laws.specs.Room.{Room};
ghost use Rattle.shapes.specs.Shapes.{IsRest, IsSquare};
ghost use Rattle.set_decoder.specs.Walked.{Walked};

use scan::Plane;
use set_decoder::tape::BitTape;

// The rest, from q to the end: its test, the three sets of length q, and the rest from 4q on.
fn read_rest(numbers: &mut [i32], q: usize, plane: Plane, tape: &mut BitTape<'_>)
    requires room { Room (suc plane) numbers.old }
    requires fits { tape.old.place + length numbers.old < 2 ^ 64 }
    requires rest { IsRest numbers.old q }
    ensures { (K : IsRest numbers.old q) → Walked (walk_rest Decoder plane K.d K.left numbers.old) tape.old numbers.new tape.new }
{
    if numbers.is_empty() {
        return;
    }
    if !set_decoder::read_test(numbers, plane, tape) {
        return;
    }
    let q2 = q + q;
    let q3 = q2 + q;
    let q4 = q3 + q;
    set_decoder::read_set(&mut numbers[0..q], plane, tape);
    set_decoder::read_set(&mut numbers[q..q2], plane, tape);
    set_decoder::read_set(&mut numbers[q2..q3], plane, tape);
    read_rest(&mut numbers[q3..], q4, plane, tape)
}

// One plane: the set of the first places, then the rest.
fn read_plane(numbers: &mut [i32], first: usize, plane: Plane, tape: &mut BitTape<'_>)
    requires room { Room (suc plane) numbers.old }
    requires fits { tape.old.place + length numbers.old < 2 ^ 64 }
    requires square { IsSquare numbers.old first }
    ensures { (K : IsSquare numbers.old first) → Walked (walk_plane Decoder K.d K.L plane numbers.old) tape.old numbers.new tape.new }
{
    set_decoder::read_set(&mut numbers[0..first], plane, tape);
    read_rest(&mut numbers[first..], first, plane, tape)
}

// Planes n - 1 down to 0, and how many of them are unfinished. A plane is finished unless a bit of it was missed; of the next
// one nothing is settled.
pub fn read_planes(numbers: &mut [i32], first: usize, n: u32, tape: &mut BitTape<'_>) -> u32
    requires room { Room n numbers.old }
    requires n_le_most_planes { n ≤ most_planes }
    requires fits { tape.old.place + length numbers.old < 2 ^ 64 }
    requires square { IsSquare numbers.old first }
    ensures { (K : IsSquare numbers.old first) → Walked (walk_planes Decoder K.d K.L n numbers.old) tape.old (numbers.new, result) tape.new }
{
    for p in (0..n).rev() {
        read_plane(numbers, first, Plane::new(p), tape);
        if tape.missed() {
            return p + 1;
        }
        tape.next_plane();
    }
    0
}
