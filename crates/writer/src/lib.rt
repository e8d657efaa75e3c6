// The blocks of a record: cut from the first b bits of lent bytes, made by value, and put at the front of lent room.
#![tactic(auto)]

ghost use Rattle.std.specs.Prelude.{◌≡◌, ◌++◌, ◌+◌, ◌*◌, ◌-◌, ◌^◌, ◌<◌, ◌≤◌, min, length, take, drop, replicate};
ghost use Rattle.paper.specs.Lists.{joined};
ghost use Rattle.paper.specs.Bits.{bits, byte_of, packed};
ghost use Rattle.paper.specs.Block.{block_bytes, header_bytes, numbered_blocks, start_of, payload_bits};
ghost use Rattle.paper.specs.Record.{blocks_for, block_of};
ghost use Rattle.paper.specs.Jobs.{room_bytes};
ghost use Rattle.block.specs.Origins.{origin_of};

use block::{BLOCK, CHECKS, Heading, ROOM};

// The byte at a place, of the first b bits alone: bits after the b-th count as 0.
#[tactic(auto, using(crate::proofs::Bytes::byte_before, crate::proofs::Bytes::byte_seam, crate::proofs::Bytes::byte_none, crate::proofs::Bytes::byte_after))]
fn byte_at(bytes: &[u8], b: usize, at: usize) -> u8
    requires { b ≤ 8 * length bytes.now }
    ensures { result ≡ byte_of 8 (drop (8 * at) (take b (bits bytes.now))) }
{
    let whole = b / 8;
    let used = b % 8;
    if at < whole {
        bytes[at]
    } else if at == whole && used > 0 {
        bits::with_bit(bytes[at], used, false)
    } else {
        0
    }
}

// The bytes from `start` on, of the first b bits alone.
#[tactic(auto, using(crate::proofs::Bytes::filled_none, crate::proofs::Bytes::filled_more, crate::proofs::Bytes::filled))]
fn fill(out: &mut [u8], bytes: &[u8], b: usize, start: usize)
    requires b_bound { b ≤ 8 * length bytes.now }
    requires out_bound { start + length out.old < 2 ^ 64 }
    ensures { out.new ≡ packed (length out.old) (drop (8 * start) (take b (bits bytes.now))) }
{
    for (i, byte) in out.iter_mut().enumerate() {
        *byte = byte_at(bytes, b, start + i);
    }
}

// The payload of block i, where a payload has `size` bytes, and zeros behind it up to the most that any has.
#[tactic(auto, using(crate::proofs::Bytes::place_small))]
fn payload(bytes: &[u8], b: usize, i: usize, size: usize) -> [u8; ROOM]
    requires b_bound { b ≤ 8 * length bytes.now }
    requires i_lt_numbered_blocks { i < numbered_blocks }
    requires size_le_room_bytes { size ≤ room_bytes }
    ensures { result ≡ packed size (drop (8 * (size * i)) (take b (bits bytes.now))) ++ replicate (room_bytes - size) 0 }
{
    let mut out = [0u8; ROOM];
    fill(&mut out[0..size], bytes, b, size * i);
    out
}

// The bits that block i holds, where a block holds `full`.
fn count_in(b: usize, i: usize, full: usize) -> usize
    requires i_lt_numbered_blocks { i < numbered_blocks }
    requires full_bound { full ≤ payload_bits header_bytes }
    ensures { result ≡ min full (b - full * i) }
{
    b.saturating_sub(full * i).min(full)
}

// Block i of the record, by value.
#[tactic(auto, using(block::proofs::Editions::start_least))]
fn block_of(h: Heading, label: &[u8], bytes: &[u8], b: usize, i: usize) -> [u8; BLOCK]
    requires label_len { length label.now ≡ 8 }
    requires b_bound { b ≤ 8 * length bytes.now }
    requires i_lt_numbered_blocks { i < numbered_blocks }
    ensures { result ≡ block_of (origin_of h.origin) h.k h.levels h.n label.now (take b (bits bytes.now)) i }
{
    let size = block::payload_bytes(u32::from(h.origin.edition()));
    let part = payload(bytes, b, i, size);
    block::made(h, label, i, count_in(b, i, 8 * size), &part[0..size])
}

// Block i of the record, in its place.
fn put_block(place: &mut [u8], h: Heading, label: &[u8], bytes: &[u8], b: usize, i: usize)
    requires place_len { length place.old ≡ block_bytes }
    requires label_len { length label.now ≡ 8 }
    requires b_bound { b ≤ 8 * length bytes.now }
    requires i_lt_numbered_blocks { i < numbered_blocks }
    ensures { place.new ≡ block_of (origin_of h.origin) h.k h.levels h.n label.now (take b (bits bytes.now)) i }
{
    place.copy_from_slice(&block_of(h, label, bytes, b, i));
}

// The record's blocks at the front of the room; what lies behind them is untouched.
pub fn write_blocks(
    room: &mut [u8],
    h: Heading,
    label: &[u8],
    bytes: &[u8],
    b: usize,
    blocks: usize,
)
    requires blocks_in_bounds { block_bytes * blocks ≤ length room.old }
    requires label_len { length label.now ≡ 8 }
    requires b_bound { b ≤ 8 * length bytes.now }
    requires blocks_le_numbered_blocks { blocks ≤ numbered_blocks }
    ensures { room.new ≡ joined blocks (block_of (origin_of h.origin) h.k h.levels h.n label.now (take b (bits bytes.now))) ++ drop (block_bytes * blocks) room.old }
{
    for number in 0..blocks {
        let start = BLOCK * number;
        put_block(&mut room[start..start + BLOCK], h, label, bytes, b, number);
    }
}

// The blocks of a record of b bits.
// It takes the edition as a number: row 6 asks it before arm and mount are judged, so there is no `Origin` yet.
#[tactic(auto, using(block::proofs::Editions::start_most))]
pub fn blocks_for(edition: u32, b: usize) -> usize
    ensures { result ≡ blocks_for edition b }
{
    let full = 8 * (CHECKS - block::payload_start(edition));
    b.div_ceil(full).max(1)
}
