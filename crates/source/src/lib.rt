// A bit source as one thing: lent bytes with a bit count and a place. The work is that of `bits::read_bit`, on plain slice
// and numbers; the struct only holds what it is lent, and `bit_from` serves whoever would not hold the struct.
#![tactic(auto)]

ghost use Rattle.std.specs.Prelude.{◌≡◌, ◌+◌, ◌*◌, ◌^◌, ◌<◌, ◌≤◌, length};
ghost use Rattle.bits.specs.Bits.{next_at};

#[derive(Clone, Copy)]
pub struct BitSource<'a> {
    pub bytes: &'a [u8],
    pub count: usize,
    pub place: usize,
}

impl<'a> BitSource<'a> {
    // The source of the first `count` bits, at their first.
    pub fn new(bytes: &'a [u8], count: usize) -> BitSource<'a>
        ensures { result ≡ record { bytes = bytes.entry; count = count; place = 0 } }
    {
        BitSource {
            bytes,
            count,
            place: 0,
        }
    }

    // The same source at another place.
    pub fn moved(self, place: usize) -> BitSource<'a>
        ensures { result ≡ record { bytes = self.entry.bytes; count = self.entry.count; place = place } }
    {
        BitSource { place, ..self }
    }

    // The next bit, and the place behind it: one past the count where the bit is missed.
    pub fn take(self) -> bits::Answer
        requires { (self.count ≤ 8 * length self.bytes.now) × (self.count + 1 < 2 ^ 64) }
        ensures { result ≡ next_at self.entry.bytes.now self.entry.count self.entry.place }
    {
        bits::read_bit(self.bytes, self.count, self.place)
    }
}

// The bit at a place, by the struct's way, for whoever has slice and numbers.
pub fn bit_from(bytes: &[u8], count: usize, place: usize) -> bits::Answer
    requires { (count ≤ 8 * length bytes.now) × (count + 1 < 2 ^ 64) }
    ensures { result ≡ next_at bytes.now count place }
{
    BitSource::new(bytes, count).moved(place).take()
}
