// The coder's walk over a set: a test, a number, numbers in order, and a set that calls itself on its quarters. Each function
// puts its bits behind those that are in the sink; at the sink's limit nothing more is put.
#![tactic(auto)]

ghost use Rattle.std.specs.Prelude.{[], ◌∷◌};
ghost use Rattle.paper.specs.Walk.{Coder, test_set, walk_number, walk_numbers, walk_set};
ghost use Rattle.shapes.specs.Shapes.{IsSet};
ghost use Rattle.set_coder.specs.Coded.{Coded};

use bits::BitSink;
use scan::{Plane, Seen};

// A test: open with no bit by a number of 2T or more; else one bit, 1 and open or 0 and closed.
pub fn code_test(numbers: &[i32], plane: Plane, sink: &mut BitSink<'_>) -> bool
    ensures { Coded (test_set Coder plane numbers.now) sink.old result sink.new }
{
    match scan::scan(numbers, plane) {
        Seen::Known => true,
        Seen::New => {
            sink.put(true);
            true
        }
        Seen::Closed => {
            sink.put(false);
            false
        }
    }
}

// A number: one bit of a number that is 2T or more; else whether it is T or more, and after a 1 its sign.
fn code_number(x: i32, plane: Plane, sink: &mut BitSink<'_>)
    ensures { Coded (walk_number Coder plane x) sink.old (x ∷ []) sink.new }
{
    let m = x.unsigned_abs();
    let t = plane.threshold();
    if m >= 2 * t {
        sink.put(plane.bit_of(m));
        return;
    }
    sink.put(m >= t);
    if m >= t {
        sink.put(x < 0);
    }
}

// Numbers in order.
fn code_numbers(numbers: &[i32], plane: Plane, sink: &mut BitSink<'_>)
    ensures { Coded (walk_numbers Coder plane numbers.now) sink.old numbers.now sink.new }
{
    for &x in numbers {
        code_number(x, plane, sink);
    }
}

// A set: its test, then its four numbers or its four quarters.
pub fn code_set(numbers: &[i32], plane: Plane, sink: &mut BitSink<'_>)
    requires { IsSet numbers.now }
    ensures { (S : IsSet numbers.now) → Coded (walk_set Coder plane S.d numbers.now) sink.old numbers.now sink.new }
{
    if !code_test(numbers, plane, sink) {
        return;
    }
    if numbers.len() == 4 {
        code_numbers(numbers, plane, sink);
        return;
    }
    let q = numbers.len() / 4;
    let q2 = q + q;
    let q3 = q2 + q;
    code_set(&numbers[..q], plane, sink);
    code_set(&numbers[q..q2], plane, sink);
    code_set(&numbers[q2..q3], plane, sink);
    code_set(&numbers[q3..], plane, sink);
}
