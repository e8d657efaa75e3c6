// The bits that a walk over the planes reads, and what of the running plane they have settled.
ghost use Rattle.std.specs.Prelude.{◌≡◌, ◌+◌, ◌*◌, ◌^◌, ◌<◌, ◌≤◌, min, ltb, length};
ghost use Rattle.paper.specs.Lists.{pick};
ghost use Rattle.bits.specs.Bits.{next_at};

use source::BitSource;

// A source at its next bit, past its count once one was missed, and the lowest place of the running plane that is not settled.
#[derive(Clone, Copy)]
pub struct BitTape<'a> {
    pub source: BitSource<'a>,
    pub place: usize,
    pub ghost lent: { source.count ≤ 8 * length source.bytes.now },
    pub ghost missable: { source.count + 1 < 2 ^ 64 },
    pub ghost near: { source.place ≤ source.count + 1 },
}

impl<'a> BitTape<'a> {
    // The tape of the first `count` bits, of which none is read.
    pub fn new(bytes: &'a [u8], count: usize) -> BitTape<'a>
        requires lent { count ≤ 8 * length bytes.now }
        requires missable { count + 1 < 2 ^ 64 }
        ensures source { result.source ≡ record { bytes = bytes.entry; count = count; place = 0 } }
        ensures place { result.place ≡ 0 }
    {
        BitTape {
            source: BitSource::new(bytes, count),
            place: 0,
        }
    }

    // Whether a bit was missed.
    pub fn missed(&self) -> bool
        ensures { result ≡ ltb self.now.source.count self.now.source.place }
    {
        self.source.count < self.source.place
    }

    // The bits read.
    pub fn read(&self) -> usize
        ensures { result ≡ min self.now.source.place self.now.source.count }
    {
        self.source.place.min(self.source.count)
    }

    // The next bit: 0 where it is missed.
    pub fn bit(&mut self) -> bool
        ensures source { self.new.source ≡ record { bytes = self.old.source.bytes; count = self.old.source.count; place = (next_at self.old.source.bytes.now self.old.source.count self.old.source.place).at } }
        ensures place { self.new.place ≡ self.old.place }
        ensures one { result ≡ (next_at self.old.source.bytes.now self.old.source.count self.old.source.place).one }
    {
        let next = self.source.take();
        self.source = self.source.moved(next.at);
        next.one
    }

    // So many places more are settled: none where a bit was missed.
    pub fn settle(&mut self, places: usize)
        requires { self.old.place + places < 2 ^ 64 }
        ensures source { self.new.source ≡ self.old.source }
        ensures place { self.new.place ≡ pick (ltb self.old.source.count self.old.source.place) self.old.place (self.old.place + places) }
    {
        if !self.missed() {
            self.place += places;
        }
    }

    // The next plane, of which nothing is settled.
    pub fn next_plane(&mut self)
        ensures source { self.new.source ≡ self.old.source }
        ensures place { self.new.place ≡ 0 }
    {
        self.place = 0;
    }
}
