// Raster places and Z places are different kinds of number. The two conversions here are the only passage between them:
// nobody else can open a place or make one from the other. Greys are reached by raster places, wavelet numbers by Z places.
#![tactic(auto)]

mod kind;

ghost use Rattle.std.specs.Prelude.{◌≡◌, ℕ, pos, ◌+◌, ◌*◌, ◌^◌, ◌<◌, ◌≤◌, length, get_or, set};
ghost use Rattle.paper.specs.Sizes.{most_size};
ghost use Rattle.paper.specs.Places.{interleaved, column_of, row_of, z_of, raster_of};

use kind::Kind;
use sizes::Size;

// A place counted row by row.
#[derive(Clone, Copy)]
pub struct Raster(usize);

// A place counted in Z order.
#[derive(Clone, Copy)]
pub struct ZPlace(usize);

// Greys lie at raster places.
impl Kind for Raster {
    type Item = u8;

    ghost index = { λ place. place.0 };

    ghost past_end = { 0 };

    fn new(i: usize) -> Raster {
        Raster(i)
    }

    fn index(self) -> usize {
        self.0
    }
}

// Wavelet numbers lie at Z places.
impl Kind for ZPlace {
    type Item = i32;

    ghost index = { λ place. place.0 };

    ghost past_end = { pos 0 };

    fn new(i: usize) -> ZPlace {
        ZPlace(i)
    }

    fn index(self) -> usize {
        self.0
    }
}

// Place i, for one who counts all places of a kind.
pub fn place<P: Kind>(i: usize) -> P
    ensures { P.index result ≡ i }
{
    P::new(i)
}

// What lies at a place: the grey at a raster place, the wavelet number at a Z place.
pub fn at<P: Kind>(items: &[P::Item], place: P) -> P::Item
    requires { P.index place < length items.now }
    ensures { result ≡ get_or items.now (P.index place) P.past_end }
{
    items[place.index()]
}

// A grey or a wavelet number to its place.
pub fn set<P: Kind>(items: &mut [P::Item], place: P, item: P::Item)
    requires { P.index place < length items.old }
    ensures { items.new ≡ set items.old (P.index place) item }
{
    items[place.index()] = item;
}

// One more than the largest number in half a word.
const HALF: usize = 0x1_0000_0000;

// As many of the lowest bits of a column as the square has, each moved to twice its place, in the low half of a word, and those of a row in the high half. Bits
// that have far to go move by eight, then by four, two and one. The masks hold ten bits a coordinate.
fn spread(size: Size, r: usize, c: usize) -> usize
    ensures value { result ≡ interleaved size 0 c + interleaved size 0 r * 2 ^ 32 }
    ensures most { size ≤ most_size }
{
    let s = size.side();
    let w = c % s + r % s * HALF;
    let w = (w | w << 8) & 0x300FF_000300FF;
    let w = (w | w << 4) & 0x30F0F_00030F0F;
    let w = (w | w << 2) & 0x33333_00033333;
    (w | w << 1) & 0x55555_00055555
}

// The column of a Z place in the low half of a word, its row in the high half: the same steps, back.
fn squeeze(size: Size, z: usize) -> usize
    ensures value { result ≡ column_of size z + row_of size z * 2 ^ 32 }
    ensures most { size ≤ most_size }
{
    let s = size.side();
    let area = s * s;
    let w = (z % area + z / 2 % area * HALF) & 0x55555_00055555;
    let w = (w | w >> 1) & 0x33333_00033333;
    let w = (w | w >> 2) & 0x30F0F_00030F0F;
    let w = (w | w >> 4) & 0x300FF_000300FF;
    (w | w >> 8) & 0x3FF_000003FF
}

// The Z place of row r and column c of a square. Each is spread for itself: along a line one of the two stays, and
// the compiler spreads that one once.
pub fn z_of(size: Size, r: usize, c: usize) -> ZPlace
    ensures { result.0 ≡ interleaved size r c }
{
    ZPlace(spread(size, 0, c) + 2 * spread(size, 0, r))
}

// The Z place of a raster place.
pub fn to_z(size: Size, place: Raster) -> ZPlace
    ensures { result.0 ≡ z_of size place.0 }
{
    let p = place.0;
    let w = spread(size, p / size.side(), p);
    ZPlace(w % HALF + 2 * (w / HALF))
}

// The raster place of a Z place.
pub fn from_z(size: Size, place: ZPlace) -> Raster
    ensures { result.0 ≡ raster_of size place.0 }
{
    let w = squeeze(size, place.0);
    Raster(w / HALF * size.side() + w % HALF)
}
