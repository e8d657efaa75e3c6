// The job display: a softer picture, for the eye alone. Each number that isn't zero is shown moved up in magnitude by half of what is
// still unknown about it; the stored numbers stay. `unfinished` is p, `place` where the cut fell, as decoding gives them.
// It takes whatever it is given: what is out of range is refused and nothing lent is changed.
#![tactic(auto)]

ghost use Rattle.std.specs.Prelude.{◌≡◌, true, ◌≤◌, length};
ghost use Rattle.paper.specs.Sizes.{most_planes, number_limit, numbers_in};
ghost use Rattle.paper.specs.Walk.{unread_at};
ghost use Rattle.paper.specs.Softer.{half_of, moved_up, softened};
ghost use Rattle.paper.specs.Jobs.{display_refusal, display_job};
ghost use Rattle.integer_laws.specs.Order.{Within};
ghost use Rattle.refusals.specs.Numbers.{refusal_of};
ghost use Rattle.transform.specs.Answers.{inverse_answer};

use places::ZPlace;
use refusals::Refusal;
use sizes::Size;

// Refusals 1, 2, 3, 4, 5 and 11, lowest first. Only the stored numbers are judged by 4.
fn judge_display(
    k: u32,
    levels: u32,
    unfinished: u32,
    place: usize,
    numbers: &[i32],
    picture: &[u8],
    room: &[i32],
) -> Result<(), Refusal>
    ensures { refusal_of result ≡ display_refusal k levels unfinished place numbers.now picture.now room.now }
{
    transform::judge_inverse(k, levels, numbers, picture, room)?;
    if !sizes::planes_in(unfinished) {
        return Err(Refusal::Planes);
    }
    if place >= numbers.len() {
        return Err(Refusal::Place);
    }
    Ok(())
}

// The low bits of number i that are unread.
fn unread_at(unfinished: u32, place: usize, i: usize) -> u32
    ensures { result ≡ unread_at unfinished place i }
{
    if i < place {
        return unfinished.saturating_sub(1);
    }
    unfinished
}

// Half of what u unread bits leave unknown.
fn half_of(u: u32) -> u32
    requires { u ≤ most_planes }
    ensures { result ≡ half_of u }
{
    (1 << u) / 2
}

// A number of which u bits are unread, as it is shown.
fn moved_up(x: i32, u: u32) -> i32
    requires within { Within number_limit x }
    requires u_le_most_planes { u ≤ most_planes }
    ensures { result ≡ moved_up (half_of u) x }
{
    if x == 0 {
        return 0;
    }
    sizes::grown(x, half_of(u))
}

// The numbers as they are shown, into `out`.
fn soften(unfinished: u32, place: usize, numbers: &[i32], out: &mut [i32])
    requires unfinished_le_most_planes { unfinished ≤ most_planes }
    requires numbers_value { numbers_in numbers.now ≡ true }
    requires out_len { length out.old ≡ length numbers.now }
    ensures { out.new ≡ softened unfinished place numbers.now }
{
    for i in 0..out.len() {
        let z = places::place::<ZPlace>(i);
        let x = places::at(numbers, z);
        places::set(out, z, moved_up(x, unread_at(unfinished, place, i)));
    }
}

// Fills the softer picture. The working room ends with the greys before they are set into 0 to 255, in Z order.
#[tactic(auto, using(crate::proofs::Refusals::display_unwritten))]
pub fn display(
    k: u32,
    levels: u32,
    unfinished: u32,
    place: usize,
    numbers: &[i32],
    picture: &mut [u8],
    room: &mut [i32],
) -> Result<(), Refusal>
    ensures { display_job k levels unfinished place numbers.now picture.old room.old ≡ inverse_answer result picture.new room.new }
{
    judge_display(k, levels, unfinished, place, numbers, picture, room)?;
    soften(unfinished, place, numbers, room);
    transform::show(Size::new(k), levels, picture, room);
    Ok(())
}
