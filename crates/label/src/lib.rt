// The face of the library: the nine jobs of the paper, each once, with its complete contract.
//
// A grey picture goes in by forward, code and write, and comes out by read, decode and inverse, softer by display, or smaller by
// thumbnail; check judges one block.
// Every call takes whatever it is given and ends. It answers what it made, or the first row of the refusal table that applies, in
// the order that the job names; a refused call changes nothing that it was lent.
//
// A contract says that the answer, in the paper's numbers, and every lent slice at exit equal the job's definition in
// paper/specs/Jobs.antt at the inputs, so it leaves nothing open (proofs/Settled.antt). The three demands are proofs/Demand1.antt, Demand2.antt
// and Demand3.antt; docs/PROMISES.md follows them sentence by sentence.
#![tactic(auto)]

ghost use Rattle.std.specs.Prelude.{◌≡◌};
ghost use Rattle.refusals.specs.Numbers.{refusal_of};
ghost use Rattle.transform.specs.Answers.{forward_answer, inverse_answer};
ghost use Rattle.coding.specs.Answers.{coding_answer};
ghost use Rattle.decoding.specs.Answers.{decoding_answer};
ghost use Rattle.record.specs.Answers.{writing_answer, reading_answer};
ghost use Rattle.paper.specs.Jobs.{forward_job, coding_job, decoding_job, inverse_job, display_job, thumbnail_job, writing_job, reading_job, check_job};

use coding::Written;
use decoding::Settled;
use record::Kept;
use refusals::Refusal;

// Fills the wavelet numbers of a picture of side 2^k, in Z order, and gives n, the planes that they need.
// Refusals 1, 2, 3.
pub fn forward(k: u32, levels: u32, picture: &[u8], numbers: &mut [i32]) -> Result<u32, Refusal>
    ensures { forward_job k levels picture.now numbers.old ≡ forward_answer result numbers.new }
{
    transform::forward(k, levels, picture, numbers)
}

// Writes the first bits of the numbers' coding, up to a limit, and gives their count and n. Spare bits of the last byte
// written are 0; later bytes are untouched. Refusals 1, 2, 3, 4.
pub fn code(
    k: u32,
    levels: u32,
    numbers: &[i32],
    limit: usize,
    bytes: &mut [u8],
) -> Result<Written, Refusal>
    ensures { coding_job k levels numbers.now limit bytes.old ≡ coding_answer result bytes.new }
{
    coding::code(k, levels, numbers, limit, bytes)
}

// Writes all S² numbers: what the first b bits settle, and 0 elsewhere. Gives the unfinished planes, the bits read, and the place
// where the cut fell: the lowest not yet settled in the running plane, 0 where none is running. Refusals 1, 2, 3, 5, 6.
pub fn decode(
    k: u32,
    levels: u32,
    n: u32,
    numbers: &mut [i32],
    bytes: &[u8],
    b: usize,
) -> Result<Settled, Refusal>
    ensures { decoding_job k levels n numbers.old bytes.now b ≡ decoding_answer result numbers.new }
{
    decoding::decode(k, levels, n, numbers, bytes, b)
}

// Fills the picture that the numbers give. The working room ends with the greys before they are set into 0 to 255, in
// Z order. Refusals 1, 2, 3, 4.
pub fn inverse(
    k: u32,
    levels: u32,
    numbers: &[i32],
    picture: &mut [u8],
    room: &mut [i32],
) -> Result<(), Refusal>
    ensures { inverse_job k levels numbers.now picture.old room.old ≡ inverse_answer result picture.new room.new }
{
    transform::inverse(k, levels, numbers, picture, room)
}

// Fills the softer picture, for the eye alone: each number that isn't zero is shown moved up in magnitude by half of what is still
// unknown about it, with p and the place that decode gave. The numbers stay as they are. The working room ends as with inverse.
// Refusals 1, 2, 3, 4, 5 (p), 11 (a place of S² or more).
pub fn display(
    k: u32,
    levels: u32,
    unfinished: u32,
    place: usize,
    numbers: &[i32],
    picture: &mut [u8],
    room: &mut [i32],
) -> Result<(), Refusal>
    ensures { display_job k levels unfinished place numbers.now picture.old room.old ≡ inverse_answer result picture.new room.new }
{
    display::display(k, levels, unfinished, place, numbers, picture, room)
}

// Fills the picture with its side halved so many times, r, 1 to L, from the first (S / 2^r)² numbers alone; picture and room
// have as many places. The working room ends as with inverse. Refusals 1, 2, 13 (r), 3, 4, judged in this order.
pub fn thumbnail(
    k: u32,
    levels: u32,
    halvings: u32,
    numbers: &[i32],
    picture: &mut [u8],
    room: &mut [i32],
) -> Result<(), Refusal>
    ensures { thumbnail_job k levels halvings numbers.now picture.old room.old ≡ inverse_answer result picture.new room.new }
{
    thumbnail::thumbnail(k, levels, halvings, numbers, picture, room)
}

// Writes the record of the first b bits, in edition 1 or 2, at the front of the room, and gives its count of blocks; later
// bytes are untouched. Edition 2 names the arm, 1 or 2, and its mount number; edition 1 ignores both.
// Refusals 1, 2, 5, 9 (edition), 6, 7, 9 (arm, mount), judged in this order. Edition and arm are numbers: any may be asked for, and
// what is none is refused (`write_takes`).
pub fn write(
    k: u32,
    levels: u32,
    n: u32,
    edition: u32,
    arm: u32,
    mount: u32,
    label: &[u8],
    bytes: &[u8],
    b: usize,
    room: &mut [u8],
) -> Result<usize, Refusal>
    ensures { writing_job k levels n (record { edition = edition; arm = arm; mount = mount }) label.now bytes.now b room.old ≡ writing_answer result room.new }
{
    record::write(k, levels, n, edition, arm, mount, label, bytes, b, room)
}

// Keeps the longest run of good blocks from the front, of either edition: gives k, L, n, the blocks kept, their bits, why
// the run ended if a block ended it, the edition, arm and mount (0 and 0 in edition 1), and lays their payload at the front of the
// room; later bytes are untouched. Refusals 6, 7, 8, 9, 10.
pub fn read(blocks: &[u8], label: &[u8], room: &mut [u8]) -> Result<Kept, Refusal>
    ensures { reading_job blocks.now label.now room.old ≡ reading_answer result room.new }
{
    record::read(blocks, label, room)
}

// Judges a single block, of either edition. Refusals 6, 8, 9. A block whose checks were right, with one or two bytes changed in
// place or two unequal ones exchanged, is refused by 8 (check_laws/proofs/Caught.antt).
pub fn check(block: &[u8]) -> Result<(), Refusal>
    ensures { refusal_of result ≡ check_job block.now }
{
    block::check(block)
}
