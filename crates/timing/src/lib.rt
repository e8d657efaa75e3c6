// What tools/bench times of `places`: places of a square, one behind the other, taken to the other kind, and rows and columns taken
// to Z places. What lies there is brought together and answered, so that no conversion can be left out. It promises nothing but to
// end and to reach what is there, and it is proved over each tree that is timed. C calls it, so there are three, and no generic one.
#![tactic(auto)]

ghost use Rattle.std.specs.Prelude.{◌≡◌, ◌^◌, ◌≤◌, length};
ghost use Rattle.paper.specs.Sizes.{most_size};

use sizes::Size;

// The numbers at the Z places of some raster places.
#[unsafe(no_mangle)]
pub extern "C" fn timing_to_z(k: u32, from: usize, to: usize, numbers: &[i32]) -> i32
    requires k_le_most_size { k ≤ most_size }
    requires numbers_len { length numbers.now ≡ 4 ^ k }
{
    let size = Size::new(k);
    let mut all = 0;
    for i in from..to {
        all ^= places::at(numbers, places::to_z(size, places::place(i)));
    }
    all
}

// The greys at the raster places of some Z places.
#[unsafe(no_mangle)]
pub extern "C" fn timing_from_z(k: u32, from: usize, to: usize, picture: &[u8]) -> u8
    requires k_le_most_size { k ≤ most_size }
    requires picture_len { length picture.now ≡ 4 ^ k }
{
    let size = Size::new(k);
    let mut all = 0;
    for i in from..to {
        all ^= places::at(picture, places::from_z(size, places::place(i)));
    }
    all
}

// The numbers at the Z places of some columns of row r.
#[unsafe(no_mangle)]
pub extern "C" fn timing_z_of(k: u32, r: usize, from: usize, to: usize, numbers: &[i32]) -> i32
    requires k_le_most_size { k ≤ most_size }
    requires numbers_len { length numbers.now ≡ 4 ^ k }
{
    let size = Size::new(k);
    let mut all = 0;
    for c in from..to {
        all ^= places::at(numbers, places::z_of(size, r, c));
    }
    all
}
