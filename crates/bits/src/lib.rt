// Packed bits: how many are lent, the bit at a place, the next of the first b bits, one bit put, and a sink of bits. Bits
// fill bytes from the high end.
#![tactic(auto)]

ghost use Rattle.std.specs.Prelude.{◌≡◌, false, ◌+◌, ◌*◌, ◌^◌, ◌<◌, ◌≤◌, leb, length, get_or};
ghost use Rattle.paper.specs.Bits.{bits};
ghost use Rattle.bits.specs.Bits.{Sink, with_bit, put1, next_at};

// b bits are not beyond so many bytes. Compared by the bytes they take, since eight times the bytes may not fit.
pub fn lends(bytes: usize, b: usize) -> bool
    ensures { result ≡ leb b (8 * bytes) }
{
    b.div_ceil(8) <= bytes
}

// The bit at a place.
#[tactic(auto, using(crate::proofs::OneBit::bit_is))]
pub fn bit_at(s: &[u8], at: usize) -> bool
    requires { at < 8 * length s.now }
    ensures { result ≡ get_or (bits s.now) at false }
{
    let i = at / 8;
    let low = 7 - at % 8;
    (s[i] >> low) % 2 == 1
}

#[derive(Clone, Copy)]
pub struct Answer {
    pub one: bool,
    pub at: usize,
}

// The next of the first b bits, and the place behind it. A bit that is missed is answered as 0, and the place is b + 1:
// no Option, since `next_at` is what this and `source` promise, and a place past b says it for all bits to come.
#[tactic(auto, unfolding(crate::specs::Bits::next_at))]
pub fn read_bit(src: &[u8], b: usize, at: usize) -> Answer
    requires { (b ≤ 8 * length src.now) × (b + 1 < 2 ^ 64) }
    ensures { result ≡ next_at src.now b at }
{
    if at < b {
        Answer {
            one: bit_at(src, at),
            at: at + 1,
        }
    } else {
        Answer {
            one: false,
            at: b + 1,
        }
    }
}

// A byte's first k bits, then the bit b, then zeros.
pub fn with_bit(v: u8, k: usize, b: bool) -> u8
    requires { k < 8 }
    ensures { result ≡ with_bit k b v }
{
    let w = 1u8 << (7 - k);
    let high = v / w / 2 * 2 * w;
    if b { high + w } else { high }
}

// Bytes lent to be filled with bits: those before `place` are put, and none is put from the limit on.
#[derive(Drop)]
pub struct BitSink<'a> {
    pub bytes: &'a mut [u8],
    pub place: usize,
    pub limit: usize,
    ghost fits: { limit ≤ 8 * length bytes.now },
}

impl<'a> BitSink<'a> {
    // The sink of so many bits, at its first.
    pub fn new(bytes: &'a mut [u8], limit: usize) -> BitSink<'a>
        requires { limit ≤ 8 * length bytes.old }
        ensures same_bytes { result.bytes.ghost_name ≡ bytes.entry.ghost_name }
        ensures bytes { result.bytes.now ≡ bytes.old }
        ensures place { result.place ≡ 0 }
        ensures limit { result.limit ≡ limit }
    {
        BitSink {
            bytes,
            place: 0,
            limit,
        }
    }

    // One bit more; nothing at the limit. The bits before it in its byte are kept and those after it cleared, so the spare
    // bits of the last byte are 0 without a word about what the byte held.
    #[tactic(auto, unfolding(crate::specs::Bits::put1))]
    pub fn put(&mut self, b: bool)
        ensures same_bytes { self.new.bytes.ghost_name ≡ self.old.bytes.ghost_name }
        ensures limit { self.new.limit ≡ self.old.limit }
        ensures put { ◌≡◌ {A = Sink} (self.new.bytes.now, self.new.place) (put1 self.old.limit b (self.old.bytes.now, self.old.place)) }
    {
        if self.place < self.limit {
            let i = self.place / 8;
            self.bytes[i] = with_bit(self.bytes[i], self.place % 8, b);
            self.place += 1;
        }
    }
}
