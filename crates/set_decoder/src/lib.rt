// The decoder's walk over a set: a test, a number, numbers in order, and a set that calls itself on its quarters.
#![tactic(auto)]

ghost use Rattle.std.specs.Prelude.{◌≡◌, [], ◌∷◌, suc, ◌+◌, ◌^◌, ◌<◌, ◌≤◌, nat_abs, length};
ghost use Rattle.paper.specs.Sizes.{most_planes};
ghost use Rattle.paper.specs.Walk.{signed, Decoder, test_set, walk_number, walk_numbers, walk_set};
ghost use Rattle.walk_laws.specs.Room.{Room};
ghost use Rattle.shapes.specs.Shapes.{IsSet};
ghost use Rattle.set_decoder.specs.Walked.{Walked};

pub mod tape;

use scan::{Plane, Seen};
use tape::BitTape;

// A test: open by a number so far, or by one bit. Open it settles nothing, closed all its places.
pub fn read_test(numbers: &[i32], plane: Plane, tape: &mut BitTape<'_>) -> bool
    requires { tape.old.place + length numbers.now < 2 ^ 64 }
    ensures { Walked (test_set Decoder plane numbers.now) tape.old result tape.new }
{
    if scan::scan(numbers, plane) == Seen::Known {
        return true;
    }
    if tape.bit() {
        return true;
    }
    tape.settle(numbers.len());
    false
}

// A number found to be T or more, by its sign bit.
fn begun(below: bool, t: u32) -> i32
    requires { t < 2 ^ most_planes }
    ensures { result ≡ signed below t }
{
    let x = t as i32;
    if below { -x } else { x }
}

// A number: its bit, and after a first 1 its sign bit, without which the 1 settles nothing.
fn read_number(x: i32, plane: Plane, tape: &mut BitTape<'_>) -> i32
    requires plane_bound { nat_abs x + 2 ^ suc plane ≤ 2 ^ most_planes }
    requires fits { tape.old.place + 1 < 2 ^ 64 }
    ensures { Walked (walk_number Decoder plane x) tape.old (result ∷ []) tape.new }
{
    let t = plane.threshold();
    if !tape.bit() {
        tape.settle(1);
        return x;
    }
    if x.unsigned_abs() >= 2 * t {
        tape.settle(1);
        return sizes::grown(x, t);
    }
    let below = tape.bit();
    if tape.missed() {
        return x;
    }
    tape.settle(1);
    begun(below, t)
}

// Numbers in order.
fn read_numbers(numbers: &mut [i32], plane: Plane, tape: &mut BitTape<'_>)
    requires room { Room (suc plane) numbers.old }
    requires fits { tape.old.place + length numbers.old < 2 ^ 64 }
    ensures { Walked (walk_numbers Decoder plane numbers.old) tape.old numbers.new tape.new }
{
    // A copy of the tape, which stays in registers.
    let mut next = *tape;
    for x in numbers.iter_mut() {
        *x = read_number(*x, plane, &mut next);
    }
    *tape = next;
}

// A set: its test, then its four numbers or its four quarters.
pub fn read_set(numbers: &mut [i32], plane: Plane, tape: &mut BitTape<'_>)
    requires room { Room (suc plane) numbers.old }
    requires fits { tape.old.place + length numbers.old < 2 ^ 64 }
    requires set { IsSet numbers.old }
    ensures { (S : IsSet numbers.old) → Walked (walk_set Decoder plane S.d numbers.old) tape.old numbers.new tape.new }
{
    if !read_test(numbers, plane, tape) {
        return;
    }
    if numbers.len() == 4 {
        read_numbers(numbers, plane, tape);
        return;
    }
    let q = numbers.len() / 4;
    let q2 = q + q;
    let q3 = q2 + q;
    read_set(&mut numbers[0..q], plane, tape);
    read_set(&mut numbers[q..q2], plane, tape);
    read_set(&mut numbers[q2..q3], plane, tape);
    read_set(&mut numbers[q3..], plane, tape)
}
