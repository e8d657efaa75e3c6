// What is read of a block byte by byte and bit by bit: a pair, a comparison, a label, the unused bits.
#![tactic(auto)]

ghost use Rattle.std.specs.Prelude.{◌≡◌, ◌+◌, ◌<◌, ◌≤◌, length, drop};
ghost use Rattle.paper.specs.Bits.{bits, all_zero};
ghost use Rattle.paper.specs.Block.{block_bytes, pair_at, same_bytes, label_character, is_label};

// Two bytes at place i, high byte first.
pub fn pair_at(block: &[u8], i: usize) -> usize
    requires { i + 1 < length block.now }
    ensures { result ≡ pair_at block.now i }
{
    usize::from(u16::from_be_bytes([block[i], block[i + 1]]))
}

// The same bytes, one for one.
#[tactic(auto, using(crate::proofs::Bytewise::same_is_pointwise))]
pub fn same_bytes(a: &[u8], b: &[u8]) -> bool
    ensures { result ≡ same_bytes a.now b.now }
{
    a == b
}

// 0 to 9 or A to Z.
#[tactic(auto, unfolding(paper::specs::Block::label_character))]
fn label_character(c: u8) -> bool
    ensures { result ≡ label_character c }
{
    c.is_ascii_digit() || c.is_ascii_uppercase()
}

// A label is eight characters.
pub fn is_label(s: &[u8]) -> bool
    ensures { result ≡ is_label s.now }
{
    s.len() == 8 && s.iter().all(|&c| label_character(c))
}

// No bit of the payload is set from the count-th on.
pub fn unused_zero(payload: &[u8], count: usize) -> bool
    requires { length payload.now ≤ block_bytes }
    ensures { result ≡ all_zero (drop count (bits payload.now)) }
{
    (count..8 * payload.len()).all(|at| !bits::bit_at(payload, at))
}
