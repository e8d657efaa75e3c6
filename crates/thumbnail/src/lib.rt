// The job thumbnail: a picture with its side halved r times, from the first numbers alone. It is the inverse that stops r levels
// early: those of the larger squares are not undone. `halvings` is r.
// It takes whatever it is given: what is out of range is refused and nothing lent is changed.
#![tactic(auto)]

ghost use Rattle.std.specs.Prelude.{◌≡◌};
ghost use Rattle.paper.specs.Sizes.{halvings_in};
ghost use Rattle.paper.specs.Jobs.{thumbnail_refusal, thumbnail_job};
ghost use Rattle.refusals.specs.Numbers.{refusal_of};
ghost use Rattle.transform.specs.Answers.{inverse_answer};

use refusals::Refusal;
use sizes::Size;

// r from 1 to L.
fn halvings_in(levels: u32, halvings: u32) -> bool
    ensures { result ≡ halvings_in levels halvings }
{
    (1..=levels).contains(&halvings)
}

// Refusals 1, 2, 13, 3 and 4, judged in this order. Only the numbers that the thumbnail is made of are judged by 4.
fn judge(
    k: u32,
    levels: u32,
    halvings: u32,
    numbers: &[i32],
    picture: &[u8],
    room: &[i32],
) -> Result<(), Refusal>
    ensures { refusal_of result ≡ thumbnail_refusal k levels halvings numbers.now picture.now room.now }
{
    sizes::judge(k, levels)?;
    if !halvings_in(levels, halvings) {
        return Err(Refusal::Halvings);
    }
    let size = Size::new(k);
    let shown = Size::new(k - halvings);
    if !transform::squares(size, shown, numbers.len(), picture.len(), room.len()) {
        return Err(Refusal::Length);
    }
    let first = room.len();
    if !sizes::numbers_in(&numbers[..first]) {
        return Err(Refusal::Magnitude);
    }
    Ok(())
}

// Fills the picture of side 2^(k - r). The working room ends with the greys before they are set into 0 to 255, in Z order.
#[tactic(auto, using(crate::proofs::Refusals::thumbnail_unwritten))]
pub fn thumbnail(
    k: u32,
    levels: u32,
    halvings: u32,
    numbers: &[i32],
    picture: &mut [u8],
    room: &mut [i32],
) -> Result<(), Refusal>
    ensures { thumbnail_job k levels halvings numbers.now picture.old room.old ≡ inverse_answer result picture.new room.new }
{
    judge(k, levels, halvings, numbers, picture, room)?;
    let shown = Size::new(k - halvings);
    let left = levels - halvings;
    let places = room.len();
    transform::rebuild(shown, left, &numbers[..places], picture, room);
    Ok(())
}
