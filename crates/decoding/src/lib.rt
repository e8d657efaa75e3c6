// The job decoding: the refusals, then all S² numbers cleared, and the planes read from the first b bits.
#![tactic(auto)]

ghost use Rattle.std.specs.Prelude.{◌≡◌, ◌*◌, ◌^◌, ◌<◌, ◌≤◌, pos, length, take, replicate};
ghost use Rattle.paper.specs.Sizes.{most_size, most_planes};
ghost use Rattle.paper.specs.Bits.{bits};
ghost use Rattle.paper.specs.Walk.{decode_of};
ghost use Rattle.paper.specs.Jobs.{decoding_refusal, decoding_job};
ghost use Rattle.refusals.specs.Numbers.{refusal_of};
ghost use Rattle.decoding.specs.Answers.{decoding_answer};

use refusals::Refusal;
use set_decoder::tape::BitTape;
use sizes::Size;

// More bits than any decoding reads: of every plane at most 3 for each number.
const READ_LIMIT: usize = sizes::MOST_PLANES as usize * (3 << (2 * sizes::MOST_SIZE));

// Refusals 1, 2, 3, 5 and 6, lowest first.
fn judge_decoding(
    k: u32,
    levels: u32,
    n: u32,
    numbers: &[i32],
    bytes: &[u8],
    b: usize,
) -> Result<(), Refusal>
    ensures { refusal_of result ≡ decoding_refusal k levels n numbers.now bytes.now b }
{
    sizes::judge(k, levels)?;
    if numbers.len() != Size::new(k).area() {
        return Err(Refusal::Length);
    }
    if !sizes::planes_in(n) {
        return Err(Refusal::Planes);
    }
    if !bits::lends(bytes.len(), b) {
        return Err(Refusal::Room);
    }
    Ok(())
}

// What a decoding settled besides the numbers.
#[derive(Clone, Copy, Debug, PartialEq, Eq)]
pub struct Settled {
    pub unfinished: u32,
    pub read: usize,
    pub place: usize,
}

// Every number 0, whatever was there.
fn clear(numbers: &mut [i32])
    ensures { numbers.new ≡ replicate (length numbers.old) (pos 0) }
{
    numbers.fill(0);
}

// What the first b bits settle, of sizes that are right: the planes unfinished, the bits read and the place. No walk reads more
// bits than the limit, and with no more than that a number is left to say that a bit was missed.
fn settle(k: u32, levels: u32, n: u32, numbers: &mut [i32], bytes: &[u8], b: usize) -> Settled
    requires levels_lt_k { levels < k }
    requires k_le_most_size { k ≤ most_size }
    requires n_le_most_planes { n ≤ most_planes }
    requires numbers_len { length numbers.old ≡ 4 ^ k }
    requires b_bound { b ≤ 8 * length bytes.now }
    ensures { decode_of k levels n (take b (bits bytes.now)) ≡ record { numbers = numbers.exit.now; unfinished = result.unfinished; read = result.read; place = result.place } }
{
    clear(numbers);
    let first = shapes::first_set(Size::new(k), levels);
    let mut tape = BitTape::new(bytes, b.min(READ_LIMIT));
    let unfinished = plane_decoder::read_planes(numbers, first, n, &mut tape);
    Settled {
        unfinished,
        read: tape.read(),
        place: tape.place,
    }
}

// Decoding of the first b bits: writes all S² numbers, gives unfinished planes, bits read, and the lowest place that the running plane
// has not settled.
#[tactic(auto, using(crate::proofs::Judging::decode_unsettled))]
pub fn decode(
    k: u32,
    levels: u32,
    n: u32,
    numbers: &mut [i32],
    bytes: &[u8],
    b: usize,
) -> Result<Settled, Refusal>
    ensures { decoding_job k levels n numbers.old bytes.now b ≡ decoding_answer result numbers.new }
{
    judge_decoding(k, levels, n, numbers, bytes, b)?;
    Ok(settle(k, levels, n, numbers, bytes, b))
}
