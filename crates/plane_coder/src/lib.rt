// The coder's walk over planes: the rest behind the first set, one plane, and the planes from the highest down. Each
// function puts its bits behind those that are in the sink; at the sink's limit nothing more is put.
#![tactic(auto)]

ghost use Rattle.std.specs.Prelude.{◌≤◌};
ghost use Rattle.paper.specs.Sizes.{most_planes};
ghost use Rattle.paper.specs.Walk.{Coder, walk_rest, walk_plane, walk_planes};
ghost use Rattle.shapes.specs.Shapes.{IsRest, IsSquare};
ghost use Rattle.set_coder.specs.Coded.{Coded};

use bits::BitSink;
use scan::Plane;

// The rest, from q to the end: its test, the three sets of length q, and the rest from 4q on.
fn code_rest(numbers: &[i32], q: usize, plane: Plane, sink: &mut BitSink<'_>)
    requires { IsRest numbers.now q }
    ensures { (K : IsRest numbers.now q) → Coded (walk_rest Coder plane K.d K.left numbers.now) sink.old numbers.now sink.new }
{
    if numbers.is_empty() {
        return;
    }
    if !set_coder::code_test(numbers, plane, sink) {
        return;
    }
    let q2 = q + q;
    let q3 = q2 + q;
    let q4 = q3 + q;
    set_coder::code_set(&numbers[..q], plane, sink);
    set_coder::code_set(&numbers[q..q2], plane, sink);
    set_coder::code_set(&numbers[q2..q3], plane, sink);
    code_rest(&numbers[q3..], q4, plane, sink);
}

// One plane: the set of the first places, then the rest.
#[tactic(auto, using(shapes::proofs::Cuts::first_fits))]
fn code_plane(numbers: &[i32], first: usize, plane: Plane, sink: &mut BitSink<'_>)
    requires { IsSquare numbers.now first }
    ensures { (K : IsSquare numbers.now first) → Coded (walk_plane Coder K.d K.L plane numbers.now) sink.old numbers.now sink.new }
{
    set_coder::code_set(&numbers[..first], plane, sink);
    code_rest(&numbers[first..], first, plane, sink);
}

// Planes n - 1 down to 0.
pub fn code_planes(numbers: &[i32], first: usize, n: u32, sink: &mut BitSink<'_>)
    requires n_le_most_planes { n ≤ most_planes }
    requires square { IsSquare numbers.now first }
    ensures { (K : IsSquare numbers.now first) → Coded (walk_planes Coder K.d K.L n numbers.now) sink.old (numbers.now, 0) sink.new }
{
    for p in (0..n).rev() {
        code_plane(numbers, first, Plane::new(p), sink);
    }
}
