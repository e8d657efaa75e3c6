// A picture's way in and out: greys less 128 at their Z places, and greys set into 0 to 255 at their raster places.
// The ways in and out have one shape and nothing else in common: kinds of place, items and the step are each's own.
#![tactic(auto)]

ghost use Rattle.std.specs.Prelude.{◌≡◌, ◌^◌, pos, ◌+ℤ◌, ◌-ℤ◌, length};
ghost use Rattle.paper.specs.Lists.{made, at};
ghost use Rattle.paper.specs.Square.{lowered, grey, pictured};
ghost use Rattle.line.specs.Each.{Each, line_limit};

use places::ZPlace;
use sizes::Size;

// A grey less 128.
fn lower_grey(g: u8) -> i32
    ensures { result ≡ pos g -ℤ pos 128 }
{
    i32::from(g) - 128
}

// Each grey of the picture less 128, at its Z place.
pub fn lower(size: Size, picture: &[u8], xs: &mut [i32])
    requires picture_len { length picture.now ≡ 4 ^ size }
    requires xs_len { length xs.old ≡ 4 ^ size }
    ensures { xs.new ≡ lowered size picture.now }
{
    for i in 0..xs.len() {
        let z = places::place(i);
        let g = places::at(picture, places::from_z(size, z));
        places::set(xs, z, lower_grey(g));
    }
}

// Each number and 128.
pub fn raise(xs: &mut [i32])
    requires { Each line_limit xs.old }
    ensures { xs.new ≡ made (length xs.old) (λ z. at xs.old z +ℤ pos 128) }
{
    for i in 0..xs.len() {
        let z = places::place::<ZPlace>(i);
        let x = places::at(xs, z);
        places::set(xs, z, x + 128);
    }
}

// Below 0 to 0, above 255 to 255.
fn grey(x: i32) -> u8
    ensures { result ≡ grey x }
{
    x.clamp(0, 255) as u8
}

// The greys at their raster places, set into 0 to 255.
pub fn set_picture(size: Size, greys: &[i32], picture: &mut [u8])
    requires greys_len { length greys.now ≡ 4 ^ size }
    requires picture_len { length picture.old ≡ 4 ^ size }
    ensures { picture.new ≡ pictured size greys.now }
{
    for i in 0..picture.len() {
        let p = places::place(i);
        let x = places::at(greys, places::to_z(size, p));
        places::set(picture, p, grey(x));
    }
}
