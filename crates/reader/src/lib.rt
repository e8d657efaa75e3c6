// What a reader keeps of lent blocks: a pass that only looks, and a pass that copies the kept payload.
#![tactic(auto)]

ghost use Rattle.std.specs.Prelude.{◌≡◌, ◌++◌, ◌+◌, ◌*◌, ◌<◌, ◌≤◌, length, take, drop};
ghost use Rattle.paper.specs.Lists.{joined, over};
ghost use Rattle.paper.specs.Block.{block_bytes, header_bytes, checks_start, numbered_blocks, same_bytes, named_of, arm_of, mount_of, payload_of, payload_bytes, payload_bits};
ghost use Rattle.paper.specs.Record.{block_at, whole_blocks, said, in_turn, turn_refusal, is_full, start_in, run_of, bits_kept, payload_kept};
ghost use Rattle.paper.specs.Jobs.{room_bytes};
ghost use Rattle.refusals.specs.Numbers.{refusal_of};
ghost use Rattle.reader.specs.Answers.{ended_of};

use block::{BLOCK, CHECKS, HEADER};
use refusals::Refusal;

// What names arm and mount in a block: nothing in edition 1.
// Here and below bytes and no array where 20 are enough: so `judge_turn` promises of block 0, and `arm_of` and `mount_of` of any.
#[tactic(auto, using(block::proofs::Editions::start_least, block::proofs::Editions::start_most, crate::proofs::Turn::named_part))]
fn named_by(block: &[u8]) -> &[u8]
    requires { header_bytes + 4 ≤ length block.now }
    ensures { result.now ≡ named_of block.now }
{
    let end = block::start_in(block);
    &block[HEADER..end]
}

// The arm that a block names, and its mount number: 0 in edition 1, and no Option, since `arm_of` and `mount_of` of the paper, which
// the clauses name and `reading_job` answers, are numbers.
#[tactic(auto, using(block::proofs::Editions::arm_none, block::proofs::Editions::named_byte))]
pub fn arm_of(block: &[u8]) -> u32
    requires { header_bytes + 4 ≤ length block.now }
    ensures { result ≡ arm_of block.now }
{
    if block[0] == 1 {
        return 0;
    }
    u32::from(block[HEADER])
}

#[tactic(auto, using(block::proofs::Editions::mount_none, block::proofs::Editions::mount_there))]
pub fn mount_of(block: &[u8]) -> u32
    requires { header_bytes + 4 ≤ length block.now }
    ensures { result ≡ mount_of block.now }
{
    if block[0] == 1 {
        return 0;
    }
    u32::from_be_bytes([0, block[HEADER + 1], block[HEADER + 2], block[HEADER + 3]])
}

// Both say the same in what the blocks of a record agree in: bytes 0 to 11, and what names arm and mount.
#[tactic(auto, using(fields::proofs::Bytewise::same_is_pointwise, crate::proofs::Turn::parted))]
fn agree(block: &[u8; BLOCK], first: &[u8]) -> bool
    requires { header_bytes + 4 ≤ length first.now }
    ensures { result ≡ same_bytes (said block.now) (said first.now) }
{
    block[..12] == first[..12] && named_by(block) == named_by(first)
}

// In its turn i: numbered so, as block 0 said, and with the label expected.
#[tactic(auto, using(fields::proofs::Bytewise::same_is_pointwise), unfolding(paper::specs::Record::in_turn))]
fn in_turn(first: &[u8], label: &[u8], i: usize, block: &[u8; BLOCK]) -> bool
    requires { header_bytes + 4 ≤ length first.now }
    ensures { result ≡ in_turn (said first.now) label.now i block.now }
{
    fields::pair_at(block, 12) == i && agree(block, first) && &block[4..12] == label
}

// The judge of one block in its turn, by what block 0 said, whose first 20 bytes are enough: why it can't be kept, by its
// check, a field or its turn. Bytes that are no block at all are refused as the single-block check refuses them.
#[tactic(auto, unfolding(paper::specs::Record::turn_refusal))]
pub fn judge_turn(first: &[u8], label: &[u8], i: usize, block: &[u8]) -> Result<(), Refusal>
    requires { header_bytes + 4 ≤ length first.now }
    ensures { refusal_of result ≡ turn_refusal (said first.now) label.now i block.now }
{
    let block = block::checked(block)?;
    if !in_turn(first, label, i, block) {
        return Err(Refusal::Turn);
    }
    Ok(())
}

// Full: it has as many payload bits as its payload can hold.
fn is_full(block: &[u8; BLOCK], start: usize) -> bool
    requires { start ≤ checks_start }
    ensures { result ≡ is_full start block.now }
{
    fields::pair_at(block, 14) == 8 * (CHECKS - start)
}

// The blocks kept from the front, and why the next one could not be: nothing if there is none or a short block ended the run.
#[derive(Clone, Copy, Debug, PartialEq, Eq)]
pub struct Run {
    pub kept: usize,
    pub ended: Option<Refusal>,
}

// The longest run. Nothing is written before it is known.
#[tactic(auto, using(block::proofs::Editions::start_most))]
pub fn longest_run(blocks: &[u8], label: &[u8]) -> Run
    ensures { run_of blocks.now label.now ≡ record { kept = result.kept; ended = ended_of result.ended } }
{
    let (whole, _) = blocks.as_chunks::<BLOCK>();
    for (i, block) in whole.iter().enumerate() {
        let first = &whole[0];
        if let Err(refusal) = judge_turn(first, label, i, block) {
            return Run {
                kept: i,
                ended: Some(refusal),
            };
        }
        if !is_full(block, block::start_in(first)) {
            return Run {
                kept: i + 1,
                ended: None,
            };
        }
    }
    Run {
        kept: whole.len(),
        ended: None,
    }
}

// The bits that kept blocks hold.
pub fn bits_kept(blocks: &[u8], kept: usize) -> usize
    requires kept_nonzero { 0 < kept }
    requires kept_le_numbered_blocks { kept ≤ numbered_blocks }
    requires kept_bound { kept ≤ whole_blocks blocks.now }
    ensures { result ≡ bits_kept (start_in blocks.now) blocks.now kept }
{
    let last = kept - 1;
    let full = 8 * (CHECKS - block::start_in(blocks));
    let (whole, _) = blocks.as_chunks::<BLOCK>();
    full * last + fields::pair_at(&whole[last], 14)
}

// Bytes into their place, by a loop: copy_from_slice asks for memmove, and the archive may ask for memcpy and memset alone
// (console/label.h).
fn copy(from: &[u8], to: &mut [u8])
    requires { length to.old ≡ length from.now }
    ensures { to.new ≡ from.now }
{
    for (i, byte) in to.iter_mut().enumerate() {
        *byte = from[i];
    }
}

// The first n payload bytes of block i, in their place; what lies before and behind is untouched.
#[tactic(auto, using(list_laws::specs::Parts::behind_part), unfolding(paper::specs::Block::payload_of))]
fn put_payload(room: &mut [u8], block: &[u8; BLOCK], start: usize, i: usize, n: usize)
    requires start_le_checks_start { start ≤ checks_start }
    requires n_in_bounds { payload_bytes start * i + n ≤ length room.old }
    requires n_bound { n ≤ payload_bytes start }
    ensures { room.new ≡ take (payload_bytes start * i) room.old ++ (take n (payload_of start block.now) ++ drop (payload_bytes start * i + n) room.old) }
{
    let payload = &block[start..CHECKS];
    let place = (CHECKS - start) * i;
    let end = place + n;
    copy(&payload[..n], &mut room[place..end]);
}

// The payload of full blocks, one behind the other.
#[tactic(auto, using(list_laws::specs::Joined::none_joined))]
fn copy_full(room: &mut [u8], blocks: &[u8], start: usize, full: usize)
    requires start_le_checks_start { start ≤ checks_start }
    requires full_bound { full ≤ whole_blocks blocks.now }
    requires full_in_bounds { payload_bytes start * full ≤ length room.old }
    ensures { room.new ≡ joined full (λ i. payload_of start (block_at blocks.now i)) ++ drop (payload_bytes start * full) room.old }
{
    let (whole, _) = blocks.as_chunks::<BLOCK>();
    for (i, block) in whole[..full].iter().enumerate() {
        put_payload(room, block, start, i, CHECKS - start);
    }
}

// The kept payload, in its used bytes, at the front of the room.
pub fn copy_kept(room: &mut [u8], blocks: &[u8], kept: usize, bits: usize)
    requires kept_nonzero { 0 < kept }
    requires kept_bound { kept ≤ whole_blocks blocks.now }
    requires blocks_in_bounds { room_bytes * whole_blocks blocks.now ≤ length room.old }
    requires bits_value { bits ≡ bits_kept (start_in blocks.now) blocks.now kept }
    requires bits_bound { bits ≤ payload_bits (start_in blocks.now) * kept }
    requires kept_le_numbered_blocks { kept ≤ numbered_blocks }
    ensures { room.new ≡ over (payload_kept (start_in blocks.now) blocks.now kept) room.old }
{
    let start = block::start_in(blocks);
    let last = kept - 1;
    let used = (bits - 8 * (CHECKS - start) * last).div_ceil(8);
    copy_full(room, blocks, start, last);
    let (whole, _) = blocks.as_chunks::<BLOCK>();
    put_payload(room, &whole[last], start, last, used);
}
