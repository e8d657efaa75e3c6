// A 512-byte block: made by value, and checked where it lies.
#![tactic(auto)]

ghost use Rattle.std.specs.Prelude.{◌≡◌, ◌++◌, ◌<◌, ◌≤◌, length, take, drop, IfOk};
ghost use Rattle.refusals.specs.Numbers.{refusal_of};
ghost use Rattle.paper.specs.Block.{edition_in, arm_in, origin_in, block_bytes, header_bytes, checks_start, start_of, header, named, sealed, two_bytes, three_bytes, payload_bytes, edition_of, checks_right, origin_right, fields_right, contents_right};
ghost use Rattle.paper.specs.Record.{made_block};
ghost use Rattle.paper.specs.Jobs.{check_job};
ghost use Rattle.block.specs.Origins.{origin_of};

use refusals::Refusal;

// The bytes of a block and of its header, and where its checks stand.
pub const BLOCK: usize = 512;

pub const HEADER: usize = 16;

pub const CHECKS: usize = 508;

// What a reader is lent for the payload of each block, whatever its edition.
pub const ROOM: usize = CHECKS - HEADER;

// The largest mount number.
const MOST_MOUNT: u32 = 16777215;

// Where a record was made: its edition, and the arm and its mount number that later editions than the first name.
#[derive(Clone, Copy, Debug, PartialEq, Eq)]
pub struct Origin {
    pub edition: u8,
    pub arm: u8,
    pub mount: u32,
}

impl Origin {
    // The edition, as the first byte of a block says it.
    pub fn edition(self) -> u8
        ensures { result ≡ (origin_of self).edition }
    {
        self.edition
    }
}

// What the blocks of a record say of themselves, all but the label.
#[derive(Clone, Copy)]
pub struct Heading {
    pub origin: Origin,
    pub k: u8,
    pub levels: u8,
    pub n: u8,
}

// There are editions 1 and 2.
// It takes a number: it judges bytes and arguments that anybody may have written.
#[tactic(auto, unfolding(paper::specs::Block::edition_in))]
pub fn edition_in(edition: u32) -> bool
    ensures { result ≡ edition_in edition }
{
    (1..=2).contains(&edition)
}

// Where the payload starts: from edition 2 on behind arm and mount.
// It takes a number: a block that nobody has judged may have any byte there.
#[tactic(auto, unfolding(paper::specs::Block::start_of))]
pub fn payload_start(edition: u32) -> usize
    ensures { result ≡ start_of edition }
{
    if edition == 1 { HEADER } else { HEADER + 4 }
}

// Where the payload starts in a block, or in the blocks of a record: its first byte is the edition.
pub fn start_in(block: &[u8]) -> usize
    requires { 0 < length block.now }
    ensures { result ≡ start_of (edition_of block.now) }
{
    payload_start(u32::from(block[0]))
}

// Arm 1 or 2.
#[tactic(auto, unfolding(paper::specs::Block::arm_in))]
fn arm_in(arm: u32) -> bool
    ensures { result ≡ arm_in arm }
{
    (1..=2).contains(&arm)
}

// Arm and mount in range; edition 1 ignores them.
// It takes numbers: it judges arguments that anybody may have written, and an `Origin` has no arm 300 to refuse.
#[tactic(auto, unfolding(paper::specs::Block::origin_in))]
pub fn origin_in(edition: u32, arm: u32, mount: u32) -> bool
    ensures { result ≡ origin_in (record { edition = edition; arm = arm; mount = mount }) }
{
    edition == 1 || arm_in(arm) && mount <= MOST_MOUNT
}

// How many bytes the payload of a record's blocks has, by their edition: a number, as `payload_start` takes it.
#[tactic(auto, using(crate::proofs::Editions::start_most))]
pub fn payload_bytes(edition: u32) -> usize
    ensures { result ≡ payload_bytes (start_of edition) }
{
    CHECKS - payload_start(edition)
}

// A number in two bytes, high byte first; of a larger one its low part.
fn two_bytes(v: usize) -> [u8; 2]
    ensures { result ≡ two_bytes v }
{
    let [.., high, low] = v.to_be_bytes();
    [high, low]
}

// A number in three bytes, high byte first; of a larger one its low part.
fn three_bytes(v: u32) -> [u8; 3]
    ensures { result ≡ three_bytes v }
{
    let [_, high, middle, low] = v.to_be_bytes();
    [high, middle, low]
}

// The header at the front.
fn with_header(
    from: [u8; BLOCK],
    h: Heading,
    label: &[u8],
    number: usize,
    count: usize,
) -> [u8; BLOCK]
    requires { length label.now ≡ 8 }
    ensures { result ≡ header (origin_of h.origin).edition h.k h.levels h.n label.now number count ++ drop header_bytes from }
{
    let mut block = from;
    block[0] = h.origin.edition();
    block[1] = h.k;
    block[2] = h.levels;
    block[3] = h.n;
    block[4..12].copy_from_slice(label);
    block[12..14].copy_from_slice(&two_bytes(number));
    block[14..HEADER].copy_from_slice(&two_bytes(count));
    block
}

// Arm and mount behind the header, where the origin names them.
fn with_origin(from: [u8; BLOCK], origin: Origin) -> [u8; BLOCK]
    ensures { result ≡ take header_bytes from ++ (named (origin_of origin) ++ drop (start_of (origin_of origin).edition) from) }
{
    let mut block = from;
    if origin.edition != 1 {
        block[HEADER] = origin.arm;
        block[HEADER + 1..HEADER + 4].copy_from_slice(&three_bytes(origin.mount));
    }
    block
}

// The payload's part filled.
#[tactic(auto, using(crate::proofs::Copies::payload_in))]
fn with_payload(from: [u8; BLOCK], start: usize, payload: &[u8]) -> [u8; BLOCK]
    requires start_le_checks_start { start ≤ checks_start }
    requires payload_len { length payload.now ≡ payload_bytes start }
    ensures { result ≡ take start from ++ (payload.now ++ drop checks_start from) }
{
    let mut block = from;
    block[start..CHECKS].copy_from_slice(payload);
    block
}

// The two checks added.
fn with_checks(from: [u8; BLOCK]) -> [u8; BLOCK]
    ensures { result ≡ sealed (take checks_start from) }
{
    let mut block = from;
    let a = sums::check_a(&block[0..CHECKS]);
    let b = sums::check_b(&block[0..CHECKS]);
    block[CHECKS..CHECKS + 2].copy_from_slice(&two_bytes(a as usize));
    block[CHECKS + 2..BLOCK].copy_from_slice(&two_bytes(b as usize));
    block
}

// A block, by value.
#[tactic(auto, using(crate::proofs::Editions::start_most))]
pub fn made(h: Heading, label: &[u8], number: usize, count: usize, payload: &[u8]) -> [u8; BLOCK]
    requires label_len { length label.now ≡ 8 }
    requires payload_len { length payload.now ≡ payload_bytes (start_of (origin_of h.origin).edition) }
    ensures { result ≡ made_block (origin_of h.origin) h.k h.levels h.n label.now number count payload.now }
{
    let start = payload_start(u32::from(h.origin.edition()));
    let front = with_origin(with_header([0; BLOCK], h, label, number, count), h.origin);
    with_checks(with_payload(front, start, payload))
}

// The edition is one that there is, and the arm is right where it is named.
#[tactic(auto, using(crate::proofs::Editions::origin_unknown, crate::proofs::Editions::origin_first, crate::proofs::Editions::origin_armed))]
fn origin_right(block: &[u8; BLOCK]) -> bool
    ensures { result ≡ origin_right block.now }
{
    let edition = u32::from(block[0]);
    edition_in(edition) && (edition == 1 || arm_in(u32::from(block[HEADER])))
}

// What every edition has is right: k, L, n, label, payload count and the unused bits.
#[tactic(auto, unfolding(paper::specs::Block::fields_right, paper::specs::Block::payload_of))]
fn fields_right(block: &[u8; BLOCK], start: usize) -> bool
    requires { start ≤ checks_start }
    ensures { result ≡ fields_right start block.now }
{
    let k = u32::from(block[1]);
    let count = fields::pair_at(block, 14);
    sizes::size_in(k)
        && sizes::levels_in(k, u32::from(block[2]))
        && sizes::planes_in(u32::from(block[3]))
        && fields::is_label(&block[4..12])
        && count <= 8 * (CHECKS - start)
        && fields::unused_zero(&block[start..CHECKS], count)
}

// All that row 9 asks.
#[tactic(auto, using(crate::proofs::Editions::start_most))]
fn contents_right(block: &[u8; BLOCK]) -> bool
    ensures { result ≡ contents_right block.now }
{
    origin_right(block) && fields_right(block, start_in(block))
}

// A and B are right.
#[tactic(auto, unfolding(paper::specs::Block::checks_right))]
fn checks_right(block: &[u8; BLOCK]) -> bool
    ensures { result ≡ checks_right block.now }
{
    let body = &block[0..CHECKS];
    fields::pair_at(block, CHECKS) == sums::check_a(body) as usize
        && fields::pair_at(block, CHECKS + 2) == sums::check_b(body) as usize
}

// The bytes as the block that they are, if they pass the single-block check.
#[tactic(auto, unfolding(paper::specs::Block::block_refusal))]
pub fn checked(bytes: &[u8]) -> Result<&[u8; BLOCK], Refusal>
    ensures refusal { refusal_of result ≡ check_job bytes.now }
    ensures whole { IfOk result (λ block. block.now ≡ bytes.now) }
{
    let Some(block) = bytes.as_array::<BLOCK>() else {
        return Err(Refusal::Room);
    };
    if !checks_right(block) {
        return Err(Refusal::Check);
    }
    if !contents_right(block) {
        return Err(Refusal::Field);
    }
    Ok(block)
}

// The single-block check.
pub fn check(block: &[u8]) -> Result<(), Refusal>
    ensures { refusal_of result ≡ check_job block.now }
{
    checked(block)?;
    Ok(())
}
