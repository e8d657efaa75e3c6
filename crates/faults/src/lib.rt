// What is said of a block that is not kept, as lines in lent room: of a run that it ended, or a record that it refuses.
#![tactic(auto)]

ghost use Rattle.std.specs.Prelude.{◌≡◌, ◌≤◌, length};
ghost use Rattle.words.specs.Line.{stands};
ghost use Rattle.faults.specs.Faults.{fault, another, labelled, unlike, elsewhere, shot_elsewhere, reasons, told, ended_of, refused_of};

use block::BLOCK;
use words::Line;

// What ended a run or refused a record is a number here and not a Refusal, since what is said is promised of every number
// (`ended_says`, `refused_says` in docs/PROMISES.md).

// The meanings of 8, 9 and 10, said of block i.
#[tactic(auto, unfolding(crate::specs::Faults::fault))]
fn fault(number: u32, i: usize) -> &'static [u8]
    ensures { result.now ≡ fault number i }
{
    match number {
        8 => b"damaged, a check is wrong (8)\n",
        9 => b"no block of edition 1 or 2, a field is wrong (9)\n",
        _ if i == 0 => b"not the start of the record asked for (10)\n",
        _ => b"not the next block of this record (10)\n",
    }
}

// Another number than the one wanted.
#[tactic(auto, unfolding(crate::specs::Faults::another))]
fn put_another(its: &[u8], found: u64, wanted: u64, line: &mut Line<'_>)
    ensures same_room { line.new.bytes.ghost_name ≡ line.old.bytes.ghost_name }
    ensures line_value { another its.now found wanted (stands line.old) ≡ stands line.new }
{
    if found != wanted {
        line.put_figures(its, found, b" and not ", wanted);
        line.put(b"\n");
    }
}

// Another label than the one expected: the desk may have to look for that cartridge.
#[tactic(auto, unfolding(crate::specs::Faults::labelled))]
fn put_labelled(found: &[u8], label: &[u8], line: &mut Line<'_>)
    ensures same_room { line.new.bytes.ghost_name ≡ line.old.bytes.ghost_name }
    ensures line_value { labelled found.now label.now (stands line.old) ≡ stands line.new }
{
    if !fields::same_bytes(found, label) {
        line.put(b"    its label is ");
        line.put(found);
        line.put(b" and not ");
        line.put(label);
        line.put(b"\n");
    }
}

// Another side, levels or planes than block 0's.
#[tactic(auto, unfolding(crate::specs::Faults::unlike))]
fn put_unlike(form: &[u8], first: &[u8], line: &mut Line<'_>)
    ensures same_room { line.new.bytes.ghost_name ≡ line.old.bytes.ghost_name }
    ensures line_value { unlike form.now first.now (stands line.old) ≡ stands line.new }
{
    if !fields::same_bytes(form, first) {
        line.put(b"    its side, levels or planes are not block 0's\n");
    }
}

// Another arm or mount than block 0's: a shot of the same label, and not this one.
#[tactic(auto, unfolding(crate::specs::Faults::elsewhere))]
fn put_elsewhere(first: &[u8; BLOCK], block: &[u8; BLOCK], line: &mut Line<'_>)
    ensures same_room { line.new.bytes.ghost_name ≡ line.old.bytes.ghost_name }
    ensures line_value { elsewhere first.now block.now (stands line.old) ≡ stands line.new }
{
    let arm = u64::from(reader::arm_of(block));
    let arm_wanted = u64::from(reader::arm_of(first));
    put_another(b"    its arm is ", arm, arm_wanted, line);
    let mount = u64::from(reader::mount_of(block));
    let mount_wanted = u64::from(reader::mount_of(first));
    put_another(b"    its mount is ", mount, mount_wanted, line);
}

// Not told where the editions differ: edition 1 has no arm that a person could look for.
#[tactic(auto, unfolding(crate::specs::Faults::shot_elsewhere))]
fn put_shot_elsewhere(first: &[u8; BLOCK], block: &[u8; BLOCK], line: &mut Line<'_>)
    ensures same_room { line.new.bytes.ghost_name ≡ line.old.bytes.ghost_name }
    ensures line_value { shot_elsewhere first.now block.now (stands line.old) ≡ stands line.new }
{
    if block[0] == first[0] {
        put_elsewhere(first, block, line);
    }
}

// Each reason of 10 that applies.
#[tactic(auto, unfolding(crate::specs::Faults::reasons))]
fn put_reasons(
    first: &[u8; BLOCK],
    label: &[u8],
    i: usize,
    block: &[u8; BLOCK],
    line: &mut Line<'_>,
)
    ensures same_room { line.new.bytes.ghost_name ≡ line.old.bytes.ghost_name }
    ensures line_value { reasons first.now label.now i block.now (stands line.old) ≡ stands line.new }
{
    let number = fields::pair_at(block, 12) as u64;
    put_another(b"    its number is ", number, i as u64, line);
    put_labelled(&block[4..12], label, line);
    let edition = u64::from(block[0]);
    put_another(b"    its edition is ", edition, u64::from(first[0]), line);
    put_unlike(&block[1..4], &first[1..4], line);
    put_shot_elsewhere(first, block, line);
}

// What is wrong with block i of the blocks.
#[tactic(auto, unfolding(crate::specs::Faults::told))]
fn put_told(number: u32, blocks: &[u8], label: &[u8], i: usize, line: &mut Line<'_>)
    ensures same_room { line.new.bytes.ghost_name ≡ line.old.bytes.ghost_name }
    ensures line_value { told number blocks.now label.now i (stands line.old) ≡ stands line.new }
{
    line.put(fault(number, i));
    let (whole, _) = blocks.as_chunks::<BLOCK>();
    if number == 10 && i < whole.len() {
        put_reasons(&whole[0], label, i, &whole[i], line);
    }
}

// What ended the run, block i, if anything did.
#[tactic(auto, unfolding(crate::specs::Faults::ended_of))]
pub fn ended(number: u32, blocks: &[u8], label: &[u8], i: usize, line: &mut Line<'_>)
    ensures same_room { line.new.bytes.ghost_name ≡ line.old.bytes.ghost_name }
    ensures line_value { ended_of number blocks.now label.now i (stands line.old) ≡ stands line.new }
    ensures upper_bound { line.old.at ≤ length line.old.bytes.now → line.new.at ≤ length line.new.bytes.now }
{
    if number != 0 {
        line.put_figure(b"  block ", i as u64);
        line.put(b" ended the run: it is ");
        put_told(number, blocks, label, i, line);
    }
}

// The lines of a record whose block 0 is not kept.
#[tactic(auto, unfolding(crate::specs::Faults::refused_of))]
pub fn refused(number: u32, blocks: &[u8], label: &[u8], line: &mut Line<'_>)
    ensures same_room { line.new.bytes.ghost_name ≡ line.old.bytes.ghost_name }
    ensures line_value { refused_of number blocks.now label.now (stands line.old) ≡ stands line.new }
{
    line.put(b"REFUSED ");
    line.put(label);
    line.put(b": block 0 is ");
    put_told(number, blocks, label, 0, line);
}
