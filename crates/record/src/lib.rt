// Record writing and record reading: the two jobs, with their rows of the refusal table.
#![tactic(auto)]

ghost use Rattle.std.specs.Prelude.{◌≡◌, true, ◌&&◌, List, ℕ, ◌+◌, ◌*◌, ◌/◌, ◌<◌, ◌≤◌, leb, length, IfOk, IfErr};
ghost use Rattle.paper.specs.Sizes.{size_in, planes_in, most_bits, unless};
ghost use Rattle.paper.specs.Block.{is_label, edition_in, origin_in, given_back, block_bytes, header_bytes, byte_at, edition_of, arm_of, mount_of};
ghost use Rattle.paper.specs.Record.{blocks_for, run_of, refusal_at};
ghost use Rattle.paper.specs.Jobs.{sizes_refusal, writing_job, Read, room_bytes, reading_job};
ghost use Rattle.refusals.specs.Numbers.{number_of, refusal_of};
ghost use Rattle.block.specs.Origins.{origin_of};
ghost use Rattle.reader.specs.Answers.{ended_of};
ghost use Rattle.record.specs.Answers.{writing_answer, reading_answer};

use block::{BLOCK, Heading, Origin, ROOM};
use reader::Run;
use refusals::Refusal;

// Row 6 of record writing, from the bytes in `bytes` and in `room`.
fn fits(k: u32, n: u32, edition: u32, bytes: usize, b: usize, room: usize) -> bool
    requires k_value { size_in k ≡ true }
    requires n_value { planes_in n ≡ true }
    ensures { result ≡ (leb b (8 * bytes) && leb b (most_bits k n) && leb (block_bytes * blocks_for edition b) room) }
{
    bits::lends(bytes, b)
        && b <= sizes::most_bits(k, n)
        && BLOCK * writer::blocks_for(edition, b) <= room
}

// Rows 6 and 7, the lower number first.
fn judge_lent(fitting: bool, label: &[u8]) -> Result<(), Refusal>
    ensures { refusal_of result ≡ unless 6 fitting (unless 7 (is_label label.now) 0) }
{
    if !fitting {
        return Err(Refusal::Room);
    }
    if !fields::is_label(label) {
        return Err(Refusal::Label);
    }
    Ok(())
}

// Row 9 of record writing, for arm and mount.
fn judge_origin(edition: u32, arm: u32, mount: u32) -> Result<(), Refusal>
    ensures { refusal_of result ≡ unless 9 (origin_in (record { edition = edition; arm = arm; mount = mount })) 0 }
{
    if !block::origin_in(edition, arm, mount) {
        return Err(Refusal::Field);
    }
    Ok(())
}

// The rows of record writing in their order: of the two rows 9 the edition's stands before row 6.
#[tactic(auto, using(refusals::proofs::Numbers::numbered, sizes::proofs::Refusals::sizes_stand, sizes::proofs::Refusals::sizes_leave, sizes::proofs::Refusals::size_accepted, crate::proofs::RefusalRows::rows_stand, crate::proofs::RefusalRows::rows_leave))]
fn judge_writing(
    k: u32,
    levels: u32,
    n: u32,
    edition: u32,
    arm: u32,
    mount: u32,
    label: &[u8],
    bytes: usize,
    b: usize,
    room: usize,
) -> Result<(), Refusal>
    ensures { refusal_of result ≡ sizes_refusal k levels (unless 5 (planes_in n) (unless 9 (edition_in edition) (unless 6 (leb b (8 * bytes) && leb b (most_bits k n) && leb (block_bytes * blocks_for edition b) room) (unless 7 (is_label label.now) (unless 9 (origin_in (record { edition = edition; arm = arm; mount = mount })) 0))))) }
{
    sizes::judge(k, levels)?;
    if !sizes::planes_in(n) {
        return Err(Refusal::Planes);
    }
    if !block::edition_in(edition) {
        return Err(Refusal::Field);
    }
    judge_lent(fits(k, n, edition, bytes, b, room), label)?;
    judge_origin(edition, arm, mount)
}

// What every block of the record says of itself; arm and mount are ignored in edition 1, and 0.
fn heading(k: u32, levels: u32, n: u32, edition: u32, arm: u32, mount: u32) -> Heading
    requires k_bound { k ≤ 255 }
    requires levels_bound { levels ≤ 255 }
    requires n_bound { n ≤ 255 }
    requires edition_bound { edition ≤ 255 }
    requires mount_value { origin_in (record { edition = edition; arm = arm; mount = mount }) ≡ true }
    ensures { (result.k ≡ k) × (result.levels ≡ levels) × (result.n ≡ n) × (origin_of result.origin ≡ given_back (record { edition = edition; arm = arm; mount = mount })) }
{
    let origin = if edition == 1 {
        Origin {
            edition: 1,
            arm: 0,
            mount: 0,
        }
    } else {
        Origin {
            edition: edition as u8,
            arm: arm as u8,
            mount,
        }
    };
    Heading {
        origin,
        k: k as u8,
        levels: levels as u8,
        n: n as u8,
    }
}

// The record of the first b bits of `bytes`, in the edition asked for: its blocks at the front of the room, and their count.
// Edition, arm and mount are numbers and no `Origin`, since `writing_job` takes whatever it is given and refuses what there is not.
#[tactic(auto, using(crate::proofs::Writing::write_unwritten))]
pub fn write(
    k: u32,
    levels: u32,
    n: u32,
    edition: u32,
    arm: u32,
    mount: u32,
    label: &[u8],
    bytes: &[u8],
    b: usize,
    room: &mut [u8],
) -> Result<usize, Refusal>
    ensures { writing_job k levels n (record { edition = edition; arm = arm; mount = mount }) label.now bytes.now b room.old ≡ writing_answer result room.new }
{
    judge_writing(
        k,
        levels,
        n,
        edition,
        arm,
        mount,
        label,
        bytes.len(),
        b,
        room.len(),
    )?;
    let blocks = writer::blocks_for(edition, b);
    let h = heading(k, levels, n, edition, arm, mount);
    writer::write_blocks(room, h, label, bytes, b, blocks);
    Ok(blocks)
}

// Row 6 of record reading, from the bytes in `blocks` and in `room`.
fn holds(blocks: usize, room: usize) -> bool
    ensures { result ≡ (leb block_bytes blocks && leb (room_bytes * (blocks / block_bytes)) room) }
{
    blocks >= BLOCK && ROOM * (blocks / BLOCK) <= room
}

// What is read of a record: what block 0 says, the blocks kept and their bits, and why the next block could not be kept.
// Edition, arm and mount are numbers, 0 where nothing is named, since `reading_job` answers them so.
#[derive(Clone, Copy, Debug, PartialEq, Eq)]
pub struct Kept {
    pub k: u32,
    pub levels: u32,
    pub n: u32,
    pub blocks: usize,
    pub bits: usize,
    pub ended: Option<Refusal>,
    pub edition: u32,
    pub arm: u32,
    pub mount: u32,
}

// What is told of kept blocks, whatever the room holds: k, L, n and the origin as block 0 says them.
fn told(blocks: &[u8], run: Run, bits: usize) -> Kept
    requires { header_bytes + 4 ≤ length blocks.now }
    ensures { (room : List ℕ) → ◌≡◌ {A = Read} (record { refusal = 0; k = byte_at blocks.now 1; L = byte_at blocks.now 2; n = byte_at blocks.now 3; blocks = run.kept; bits = bits; ended = ended_of run.ended; edition = edition_of blocks.now; arm = arm_of blocks.now; mount = mount_of blocks.now; room = room }) (reading_answer (Ok result) room) }
{
    Kept {
        k: u32::from(blocks[1]),
        levels: u32::from(blocks[2]),
        n: u32::from(blocks[3]),
        blocks: run.kept,
        bits,
        ended: run.ended,
        edition: u32::from(blocks[0]),
        arm: reader::arm_of(blocks),
        mount: reader::mount_of(blocks),
    }
}

// The longest run of blocks that can be kept; where there is none, why block 0 can't be kept.
fn kept_run(blocks: &[u8], label: &[u8]) -> Result<Run, Refusal>
    requires { block_bytes ≤ length blocks.now }
    ensures kept { IfOk result (λ run. (0 < run.kept) × (run_of blocks.now label.now ≡ record { kept = run.kept; ended = ended_of run.ended })) }
    ensures refused { IfErr result (λ refusal. number_of refusal ≡ refusal_at blocks.now label.now 0) }
{
    match reader::longest_run(blocks, label) {
        Run {
            kept: 0,
            ended: Some(refusal),
        } => Err(refusal),
        run => Ok(run),
    }
}

// The longest run of blocks that can be kept: what it says, and its payload at the front of the room. Nothing is
// written before the run is known.
#[tactic(auto, using(crate::proofs::Reading::read_unread))]
pub fn read(blocks: &[u8], label: &[u8], room: &mut [u8]) -> Result<Kept, Refusal>
    ensures { reading_job blocks.now label.now room.old ≡ reading_answer result room.new }
{
    let fitting = holds(blocks.len(), room.len());
    judge_lent(fitting, label)?;
    let run = kept_run(blocks, label)?;
    let bits = reader::bits_kept(blocks, run.kept);
    reader::copy_kept(room, blocks, run.kept, bits);
    Ok(told(blocks, run, bits))
}
