// The set test: what a set shows on plane p, found by one scan that ends at the first magnitude of 2T or more.
#![tactic(auto)]

ghost use Rattle.std.specs.Prelude.{◌≡◌, ℕ, ◌^◌, ◌<◌};
ghost use Rattle.paper.specs.Sizes.{most_planes};
ghost use Rattle.paper.specs.Walk.{bit_of};
ghost use Rattle.scan.specs.Seen.{seen_of};

use std::marker::Model;

// p of a plane, below the most planes.
#[derive(Clone, Copy, Debug, PartialEq, Eq)]
pub struct Plane {
    p: u32,
}

impl Model for Plane {
    ghost Value = { ℕ };

    ghost view = { λ s. s.p };

    ghost invariant = { λ s. s.p < most_planes };

    ghost inverse = { λ p. record { p = p } };
}

impl Plane {
    // Of p, which is below the most planes.
    pub fn new(p: u32) -> Plane
        requires { p < most_planes }
        ensures { result ≡ p }
    {
        Plane { p }
    }

    // T, the magnitude of the plane's bit.
    #[tactic(auto, using(crate::proofs::Reached::threshold_shifted))]
    pub fn threshold(self) -> u32
        ensures value { result ≡ 2 ^ self }
        ensures most { self < most_planes }
    {
        1 << self.p
    }

    // The plane's bit of a magnitude.
    #[tactic(auto, unfolding(paper::specs::Walk::bit_of))]
    pub fn bit_of(self, m: u32) -> bool
        ensures { result ≡ bit_of self m }
    {
        (m >> self.p) % 2 == 1
    }
}

#[derive(Clone, Copy, Debug, PartialEq, Eq)]
pub enum Seen {
    Known,
    New,
    Closed,
}

// What a test of the numbers sees on the plane.
pub fn scan(xs: &[i32], plane: Plane) -> Seen
    ensures { result ≡ seen_of plane xs.now }
{
    let t = plane.threshold();
    let mut any = false;
    let mut rest = xs.iter();
    // by a rule of this project the set test is a loop that yields known, new or closed by break (docs/DECISIONS.md)
    loop {
        let Some(x) = rest.next() else {
            break if any { Seen::New } else { Seen::Closed };
        };
        let m = x.unsigned_abs();
        if m >= 2 * t {
            break Seen::Known;
        }
        if m >= t {
            any = true;
        }
    }
}
