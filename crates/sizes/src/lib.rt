// The paper's sizes and limits: which sides, levels, planes and numbers are in range, and what follows from them.
#![tactic(auto)]

ghost use Rattle.std.specs.Prelude.{◌≡◌, true, ℕ, ◌+◌, ◌*◌, ◌-◌, ◌/◌, ◌^◌, ◌<◌, ◌≤◌, max, leb, nat_abs};
ghost use Rattle.integer_laws.specs.Order.{Within};
ghost use Rattle.paper.specs.Sizes.{most_size, size_in, levels_in, planes_in, numbers_in, number_limit, most_planes, most_bits, grey_limit};
ghost use Rattle.paper.specs.Walk.{negative, signed, largest, bits_needed, plane_count};
ghost use Rattle.paper.specs.Jobs.{sizes_refusal};
ghost use Rattle.refusals.specs.Numbers.{refusal_of};

use refusals::Refusal;
use std::marker::Model;

// The least and the largest k of a side 2^k.
pub const LEAST_SIZE: u32 = 3;

pub const MOST_SIZE: u32 = 8;
// The most levels, whatever the side.
pub const MOST_LEVELS: u32 = 5;
// The most planes.
pub const MOST_PLANES: u32 = 18;
// The largest magnitude of a wavelet number.
pub const NUMBER_LIMIT: u32 = 262143;

const LIMIT: i32 = NUMBER_LIMIT as i32;

// k of a square of side 2^k, up to the largest; a thumbnail's too.
#[derive(Clone, Copy, Debug, PartialEq, Eq)]
pub struct Size {
    k: u32,
}

impl Model for Size {
    ghost Value = { ℕ };

    ghost view = { λ s. s.k };

    ghost invariant = { λ s. s.k ≤ most_size };

    ghost inverse = { λ k. record { k = k } };
}

impl Size {
    // Of k, which is at most the largest.
    pub fn new(k: u32) -> Size
        requires { k ≤ most_size }
        ensures { result ≡ k }
    {
        Size { k }
    }

    // k itself.
    pub fn k(self) -> u32
        ensures value { result ≡ self }
        ensures most { result ≤ most_size }
    {
        self.k
    }

    // S, the places of a line.
    pub fn side(self) -> usize
        ensures value { result ≡ 2 ^ self }
        ensures most { self ≤ most_size }
    {
        1 << self.k
    }

    // S², the places of a picture; of a thumbnail too.
    pub fn area(self) -> usize
        ensures { result ≡ 4 ^ self }
    {
        1 << (2 * self.k)
    }

    // A quarter's: of half the side.
    pub fn half(self) -> Size
        requires { 0 < self }
        ensures { result ≡ self - 1 }
    {
        Size { k: self.k - 1 }
    }
}

// k in its range.
pub fn size_in(k: u32) -> bool
    ensures { result ≡ size_in k }
{
    (LEAST_SIZE..=MOST_SIZE).contains(&k)
}

// L from 1 to the smaller of the most levels and k - 1.
pub fn levels_in(k: u32, levels: u32) -> bool
    ensures { result ≡ levels_in k levels }
{
    (1..=MOST_LEVELS).contains(&levels) && levels < k
}

// n at most the most planes.
pub fn planes_in(n: u32) -> bool
    ensures { result ≡ planes_in n }
{
    n <= MOST_PLANES
}

// Refuses sizes that are out of range, the side first.
pub fn judge(k: u32, levels: u32) -> Result<(), Refusal>
    ensures { refusal_of result ≡ sizes_refusal k levels 0 }
{
    if !size_in(k) {
        return Err(Refusal::Side);
    }
    if !levels_in(k, levels) {
        return Err(Refusal::Levels);
    }
    Ok(())
}

// The most bits that a coding of n planes has.
pub fn most_bits(k: u32, n: u32) -> usize
    requires k_value { size_in k ≡ true }
    requires n_value { planes_in n ≡ true }
    ensures { result ≡ most_bits k n }
{
    let places = Size::new(k).area();
    n as usize * (4 * places - 1) / 3 + places
}

// A number within the limit. By both bounds, and not by its magnitude: that takes two instructions more of each number.
pub fn number_in(x: i32) -> bool
    ensures { result ≡ leb (nat_abs x) number_limit }
{
    (-LIMIT..=LIMIT).contains(&x)
}

// No number beyond the limit.
pub fn numbers_in(xs: &[i32]) -> bool
    ensures { result ≡ numbers_in xs.now }
{
    xs.iter().all(|&x| number_in(x))
}

// A number with so much more in magnitude, its sign kept.
pub fn grown(x: i32, more: u32) -> i32
    requires { nat_abs x + more < 2 ^ 31 }
    ensures { result ≡ signed (negative x) (nat_abs x + more) }
{
    let v = more as i32;
    if x < 0 { x - v } else { x + v }
}

// The largest magnitude.
fn largest(xs: &[i32]) -> u32
    ensures { result ≡ largest xs.now }
{
    let mut most: u32 = 0;
    for &x in xs {
        most = most.max(x.unsigned_abs());
    }
    most
}

// The bits that a magnitude needs.
fn bits_needed(m: u32) -> u32
    requires { m ≤ number_limit }
    ensures { result ≡ bits_needed most_planes m }
{
    u32::BITS - m.leading_zeros()
}

// n: the bits needed for the largest magnitude.
pub fn plane_count(xs: &[i32]) -> u32
    requires { numbers_in xs.now ≡ true }
    ensures { result ≡ plane_count xs.now }
{
    bits_needed(largest(xs))
}

// How far a grey can be off, with L levels and p planes unfinished; at most 255.
pub fn grey_limit(levels: u32, unfinished: u32) -> u32
    ensures { result ≡ grey_limit levels unfinished }
{
    if unfinished == 0 {
        return 0;
    }
    if 8 <= unfinished {
        return 255;
    }
    if 37 <= levels {
        return 255;
    }
    let limit = (7 * levels + 1) * ((1u32 << unfinished) - 1);
    limit.min(255)
}
