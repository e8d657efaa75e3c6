// The job coding, with a bit limit: the refusals, then the planes coded into the bytes lent.
#![tactic(auto)]

ghost use Rattle.std.specs.Prelude.{◌≡◌, ◌*◌, min};
ghost use Rattle.paper.specs.Jobs.{coding_refusal, coding_job};
ghost use Rattle.refusals.specs.Numbers.{refusal_of};
ghost use Rattle.coding.specs.Answers.{coding_answer};

use bits::BitSink;
use refusals::Refusal;
use sizes::Size;

// What a coding wrote: so many bits, and the planes they are of.
#[derive(Clone, Copy, Debug, PartialEq, Eq)]
pub struct Written {
    pub bits: usize,
    pub n: u32,
}

// Refusals 1 to 4, lowest first.
fn judge_coding(k: u32, levels: u32, numbers: &[i32]) -> Result<(), Refusal>
    ensures { refusal_of result ≡ coding_refusal k levels numbers.now }
{
    sizes::judge(k, levels)?;
    if numbers.len() != Size::new(k).area() {
        return Err(Refusal::Length);
    }
    if !sizes::numbers_in(numbers) {
        return Err(Refusal::Magnitude);
    }
    Ok(())
}

// The most bits that may be written. 8 × the bytes lent may pass the largest usize, but then it passes the limit too.
fn room(limit: usize, lent: usize) -> usize
    ensures { result ≡ min limit (8 * lent) }
{
    limit.min(lent.saturating_mul(8))
}

// Codes wavelet numbers into the bytes lent: the first min(limit, 8 × bytes lent, total) bits.
#[tactic(auto, using(crate::proofs::Job::code_unwritten))]
pub fn code(
    k: u32,
    levels: u32,
    numbers: &[i32],
    limit: usize,
    bytes: &mut [u8],
) -> Result<Written, Refusal>
    ensures { coding_job k levels numbers.now limit bytes.old ≡ coding_answer result bytes.new }
{
    judge_coding(k, levels, numbers)?;
    let n = sizes::plane_count(numbers);
    let first = shapes::first_set(Size::new(k), levels);
    let most = room(limit, bytes.len());
    let mut sink = BitSink::new(bytes, most);
    plane_coder::code_planes(numbers, first, n, &mut sink);
    Ok(Written {
        bits: sink.place,
        n,
    })
}
