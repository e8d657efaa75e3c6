// The library for C and Rust: every job as numbers, slices and plain structs. See console/label.h. What the face answers by a Result
// is a number, or a struct with a number, here: C has no enums that carry values.
#![tactic(auto)]

ghost use Rattle.std.specs.Prelude.{◌≡◌, List, ℕ, ℤ};
ghost use Rattle.paper.specs.Jobs.{forward_job, coding_job, decoding_job, inverse_job, display_job, thumbnail_job, writing_job, reading_job, check_job};
ghost use Rattle.refusals.specs.Numbers.{refusal_of};
ghost use Rattle.transform.specs.Answers.{forward_answer};
ghost use Rattle.coding.specs.Answers.{coding_answer};
ghost use Rattle.decoding.specs.Answers.{decoding_answer};
ghost use Rattle.record.specs.Answers.{writing_answer, reading_answer};

use refusals::Refusal;

// The answers of the jobs as C has them (console/label.h, from label_planes to label_kept), each a struct with fields of its own: why a
// call is refused, or 0, and what it gives, 0 where it is refused.
#[repr(C)]
#[derive(Clone, Copy)]
pub struct LabelPlanes {
    pub refusal: u32,
    pub n: u32,
}

#[repr(C)]
#[derive(Clone, Copy)]
pub struct LabelWritten {
    pub refusal: u32,
    pub bits: usize,
    pub n: u32,
}

#[repr(C)]
#[derive(Clone, Copy)]
pub struct LabelSettled {
    pub refusal: u32,
    pub unfinished: u32,
    pub read: usize,
    pub place: usize,
}

#[repr(C)]
#[derive(Clone, Copy)]
pub struct LabelBlocks {
    pub refusal: u32,
    pub blocks: usize,
}

#[repr(C)]
#[derive(Clone, Copy)]
pub struct LabelKept {
    pub refusal: u32,
    pub k: u32,
    pub levels: u32,
    pub n: u32,
    pub blocks: usize,
    pub bits: usize,
    pub ended: u32,
    pub edition: u32,
    pub arm: u32,
    pub mount: u32,
}

impl From<Result<u32, Refusal>> for LabelPlanes {
    ghost from_gives = { λ r p. (xs : List ℤ) → forward_answer r xs ≡ record { refusal = p.refusal; n = p.n; numbers = xs } };

    fn from(answer: Result<u32, Refusal>) -> LabelPlanes {
        match answer {
            Ok(n) => LabelPlanes { refusal: 0, n },
            Err(refusal) => LabelPlanes {
                refusal: refusal.number(),
                n: 0,
            },
        }
    }
}

impl From<Result<coding::Written, Refusal>> for LabelWritten {
    ghost from_gives = { λ r w. (s : List ℕ) → coding_answer r s ≡ record { refusal = w.refusal; written = w.bits; n = w.n; bytes = s } };

    fn from(answer: Result<coding::Written, Refusal>) -> LabelWritten {
        match answer {
            Ok(written) => LabelWritten {
                refusal: 0,
                bits: written.bits,
                n: written.n,
            },
            Err(refusal) => LabelWritten {
                refusal: refusal.number(),
                bits: 0,
                n: 0,
            },
        }
    }
}

impl From<Result<decoding::Settled, Refusal>> for LabelSettled {
    ghost from_gives = { λ r d. (xs : List ℤ) → decoding_answer r xs ≡ record { refusal = d.refusal; unfinished = d.unfinished; read = d.read; place = d.place; numbers = xs } };

    fn from(answer: Result<decoding::Settled, Refusal>) -> LabelSettled {
        match answer {
            Ok(settled) => LabelSettled {
                refusal: 0,
                unfinished: settled.unfinished,
                read: settled.read,
                place: settled.place,
            },
            Err(refusal) => LabelSettled {
                refusal: refusal.number(),
                unfinished: 0,
                read: 0,
                place: 0,
            },
        }
    }
}

impl From<Result<usize, Refusal>> for LabelBlocks {
    ghost from_gives = { λ r w. (s : List ℕ) → writing_answer r s ≡ record { refusal = w.refusal; blocks = w.blocks; room = s } };

    fn from(answer: Result<usize, Refusal>) -> LabelBlocks {
        match answer {
            Ok(blocks) => LabelBlocks { refusal: 0, blocks },
            Err(refusal) => LabelBlocks {
                refusal: refusal.number(),
                blocks: 0,
            },
        }
    }
}

impl From<Result<record::Kept, Refusal>> for LabelKept {
    ghost from_gives = { λ r x. (s : List ℕ) → reading_answer r s ≡ record { refusal = x.refusal; k = x.k; L = x.levels; n = x.n; blocks = x.blocks; bits = x.bits; ended = x.ended; edition = x.edition; arm = x.arm; mount = x.mount; room = s } };

    fn from(answer: Result<record::Kept, Refusal>) -> LabelKept {
        match answer {
            Ok(kept) => LabelKept {
                refusal: 0,
                k: kept.k,
                levels: kept.levels,
                n: kept.n,
                blocks: kept.blocks,
                bits: kept.bits,
                ended: kept.ended.map_or(0, Refusal::number),
                edition: kept.edition,
                arm: kept.arm,
                mount: kept.mount,
            },
            Err(refusal) => LabelKept {
                refusal: refusal.number(),
                k: 0,
                levels: 0,
                n: 0,
                blocks: 0,
                bits: 0,
                ended: 0,
                edition: 0,
                arm: 0,
                mount: 0,
            },
        }
    }
}

// The number of a job that says no more than whether and why it refuses.
fn number(answer: Result<(), Refusal>) -> u32
    ensures { result ≡ refusal_of answer }
{
    match answer {
        Ok(()) => 0,
        Err(refusal) => refusal.number(),
    }
}

#[unsafe(no_mangle)]
pub extern "C" fn label_forward(
    k: u32,
    levels: u32,
    picture: &[u8],
    numbers: &mut [i32],
) -> LabelPlanes
    ensures { forward_job k levels picture.now numbers.old ≡ record { refusal = result.refusal; n = result.n; numbers = numbers.new } }
{
    label::forward(k, levels, picture, numbers).into()
}

#[unsafe(no_mangle)]
pub extern "C" fn label_code(
    k: u32,
    levels: u32,
    numbers: &[i32],
    limit: usize,
    bytes: &mut [u8],
) -> LabelWritten
    ensures { coding_job k levels numbers.now limit bytes.old ≡ record { refusal = result.refusal; written = result.bits; n = result.n; bytes = bytes.new } }
{
    label::code(k, levels, numbers, limit, bytes).into()
}

#[unsafe(no_mangle)]
pub extern "C" fn label_decode(
    k: u32,
    levels: u32,
    n: u32,
    numbers: &mut [i32],
    bytes: &[u8],
    b: usize,
) -> LabelSettled
    ensures { decoding_job k levels n numbers.old bytes.now b ≡ record { refusal = result.refusal; unfinished = result.unfinished; read = result.read; place = result.place; numbers = numbers.new } }
{
    label::decode(k, levels, n, numbers, bytes, b).into()
}

#[unsafe(no_mangle)]
pub extern "C" fn label_inverse(
    k: u32,
    levels: u32,
    numbers: &[i32],
    picture: &mut [u8],
    room: &mut [i32],
) -> u32
    ensures { inverse_job k levels numbers.now picture.old room.old ≡ record { refusal = result; picture = picture.new; room = room.new } }
{
    number(label::inverse(k, levels, numbers, picture, room))
}

#[unsafe(no_mangle)]
pub extern "C" fn label_display(
    k: u32,
    levels: u32,
    unfinished: u32,
    place: usize,
    numbers: &[i32],
    picture: &mut [u8],
    room: &mut [i32],
) -> u32
    ensures { display_job k levels unfinished place numbers.now picture.old room.old ≡ record { refusal = result; picture = picture.new; room = room.new } }
{
    number(label::display(k, levels, unfinished, place, numbers, picture, room))
}

#[unsafe(no_mangle)]
pub extern "C" fn label_thumbnail(
    k: u32,
    levels: u32,
    halvings: u32,
    numbers: &[i32],
    picture: &mut [u8],
    room: &mut [i32],
) -> u32
    ensures { thumbnail_job k levels halvings numbers.now picture.old room.old ≡ record { refusal = result; picture = picture.new; room = room.new } }
{
    number(label::thumbnail(k, levels, halvings, numbers, picture, room))
}

#[unsafe(no_mangle)]
pub extern "C" fn label_write(
    k: u32,
    levels: u32,
    n: u32,
    edition: u32,
    arm: u32,
    mount: u32,
    label: &[u8],
    bytes: &[u8],
    b: usize,
    room: &mut [u8],
) -> LabelBlocks
    ensures { writing_job k levels n (record { edition = edition; arm = arm; mount = mount }) label.now bytes.now b room.old ≡ record { refusal = result.refusal; blocks = result.blocks; room = room.new } }
{
    label::write(k, levels, n, edition, arm, mount, label, bytes, b, room).into()
}

#[unsafe(no_mangle)]
pub extern "C" fn label_read(blocks: &[u8], label: &[u8], room: &mut [u8]) -> LabelKept
    ensures { reading_job blocks.now label.now room.old ≡ record { refusal = result.refusal; k = result.k; L = result.levels; n = result.n; blocks = result.blocks; bits = result.bits; ended = result.ended; edition = result.edition; arm = result.arm; mount = result.mount; room = room.new } }
{
    label::read(blocks, label, room).into()
}

#[unsafe(no_mangle)]
pub extern "C" fn label_block_check(block: &[u8]) -> u32
    ensures { result ≡ check_job block.now }
{
    number(label::check(block))
}
