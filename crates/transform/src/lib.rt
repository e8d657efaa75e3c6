// The jobs forward and inverse: a picture's wavelet numbers, and the picture that wavelet numbers give back.
// Both take whatever they are given: what is out of range is refused and nothing lent is changed.
#![tactic(auto)]

ghost use Rattle.std.specs.Prelude.{◌≡◌, true, ◌&&◌, ◌^◌, ◌≤◌, length};
ghost use Rattle.paper.specs.Sizes.{most_levels, levels_in, numbers_in};
ghost use Rattle.paper.specs.Square.{numbers_of, greys_of, pictured};
ghost use Rattle.paper.specs.Jobs.{is_square, forward_refusal, forward_job, inverse_refusal, inverse_job};
ghost use Rattle.square_laws.specs.Near.{grown};
ghost use Rattle.levels.specs.Level.{Fitting};
ghost use Rattle.refusals.specs.Numbers.{refusal_of};
ghost use Rattle.transform.specs.Answers.{forward_answer, inverse_answer};

use places::ZPlace;
use refusals::Refusal;
use sizes::Size;

// Refusals 1, 2 and 3, lowest first.
fn judge_forward(k: u32, levels: u32, picture: &[u8], numbers: &[i32]) -> Result<(), Refusal>
    ensures { refusal_of result ≡ forward_refusal k levels picture.now numbers.now }
{
    sizes::judge(k, levels)?;
    let places = Size::new(k).area();
    if picture.len() != places || numbers.len() != places {
        return Err(Refusal::Length);
    }
    Ok(())
}

// Numbers of a square of one size, a picture and a room of one of another.
pub fn squares(size: Size, shown: Size, numbers: usize, picture: usize, room: usize) -> bool
    ensures { result ≡ (is_square size numbers && is_square shown picture && is_square shown room) }
{
    let places = shown.area();
    numbers == size.area() && picture == places && room == places
}

// Refusals 1, 2, 3 and 4, lowest first.
pub fn judge_inverse(
    k: u32,
    levels: u32,
    numbers: &[i32],
    picture: &[u8],
    room: &[i32],
) -> Result<(), Refusal>
    ensures { refusal_of result ≡ inverse_refusal k levels numbers.now picture.now room.now }
{
    sizes::judge(k, levels)?;
    let size = Size::new(k);
    if !squares(size, size, numbers.len(), picture.len(), room.len()) {
        return Err(Refusal::Length);
    }
    if !sizes::numbers_in(numbers) {
        return Err(Refusal::Magnitude);
    }
    Ok(())
}

// The wavelet numbers of a picture.
fn to_numbers(size: Size, levels: u32, picture: &[u8], numbers: &mut [i32])
    requires levels_value { levels_in size levels ≡ true }
    requires picture_len { length picture.now ≡ 4 ^ size }
    requires numbers_len { length numbers.old ≡ 4 ^ size }
    ensures numbers_after { numbers.new ≡ numbers_of size levels picture.now }
    ensures numbers_after_2 { numbers_in numbers.new ≡ true }
{
    picture::lower(size, picture, numbers);
    levels::forward(size, levels, numbers);
}

// The picture of the numbers in the room, which ends with its greys before they are set into 0 to 255. Of a thumbnail too: its side
// may be smaller than a picture's, and no level be left.
pub fn show(size: Size, levels: u32, picture: &mut [u8], room: &mut [i32])
    requires levels_le_size { levels ≤ size }
    requires picture_len { length picture.old ≡ 4 ^ size }
    requires room_len { length room.old ≡ 4 ^ size }
    requires fitting { Fitting grown levels room.old }
    ensures picture_after { picture.new ≡ pictured size (greys_of size levels room.old) }
    ensures room_after { room.new ≡ greys_of size levels room.old }
{
    levels::back(size, levels, room);
    picture::raise(room);
    picture::set_picture(size, room, picture);
}

// The numbers into the room, by a loop: copy_from_slice asks for memmove, and the archive may ask for memcpy and memset alone
// (console/label.h).
fn copy(numbers: &[i32], room: &mut [i32])
    requires { length room.old ≡ length numbers.now }
    ensures { room.new ≡ numbers.now }
{
    for i in 0..room.len() {
        let z = places::place::<ZPlace>(i);
        places::set(room, z, places::at(numbers, z));
    }
}

// The picture of wavelet numbers, and in the room its greys before they are set into 0 to 255.
pub fn rebuild(size: Size, levels: u32, numbers: &[i32], picture: &mut [u8], room: &mut [i32])
    requires levels_le_most_levels { levels ≤ most_levels }
    requires levels_le_size { levels ≤ size }
    requires numbers_len { length numbers.now ≡ 4 ^ size }
    requires numbers_value { numbers_in numbers.now ≡ true }
    requires picture_len { length picture.old ≡ 4 ^ size }
    requires room_len { length room.old ≡ 4 ^ size }
    ensures picture_after { picture.new ≡ pictured size (greys_of size levels numbers.now) }
    ensures room_after { room.new ≡ greys_of size levels numbers.now }
{
    copy(numbers, room);
    show(size, levels, picture, room);
}

// Fills the wavelet numbers, gives n.
#[tactic(auto, using(crate::proofs::Refusals::forward_unwritten))]
pub fn forward(k: u32, levels: u32, picture: &[u8], numbers: &mut [i32]) -> Result<u32, Refusal>
    ensures { forward_job k levels picture.now numbers.old ≡ forward_answer result numbers.new }
{
    judge_forward(k, levels, picture, numbers)?;
    to_numbers(Size::new(k), levels, picture, numbers);
    Ok(sizes::plane_count(numbers))
}

// Fills the picture. The working room ends with the greys before they are set into 0 to 255, in Z order.
#[tactic(auto, using(crate::proofs::Refusals::inverse_unwritten))]
pub fn inverse(
    k: u32,
    levels: u32,
    numbers: &[i32],
    picture: &mut [u8],
    room: &mut [i32],
) -> Result<(), Refusal>
    ensures { inverse_job k levels numbers.now picture.old room.old ≡ inverse_answer result picture.new room.new }
{
    judge_inverse(k, levels, numbers, picture, room)?;
    rebuild(Size::new(k), levels, numbers, picture, room);
    Ok(())
}
