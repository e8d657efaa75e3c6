// What decode says of a picture, or of a thumbnail, as lines: the verdict first, then what it is worth.
#![tactic(auto)]

ghost use Rattle.std.specs.Prelude.{◌≡◌};
ghost use Rattle.words.specs.Line.{stands};
ghost use Rattle.verdict.specs.Verdict.{share_of, running, planes, report_of};

use title::{Origin, is_long, put_blocks, put_origin, put_title};
use words::Line;
use worth::{Decoded, side};

// How far into the planes the bits went: `place` is the first number that the plane which is running has not settled.
#[derive(Clone, Copy)]
pub struct Depth {
    pub planes: u32,
    pub bits: usize,
    pub place: usize,
}

// How much of the plane that is running is in, in whole per cent.
#[tactic(auto, using(worth::proofs::Laws::side_most), unfolding(crate::specs::Verdict::share_of))]
fn share(k: u32, place: usize) -> u64
    ensures { result ≡ share_of k place }
{
    let side = side(k);
    let square = side * side;
    if square <= place as u64 {
        return 100;
    }
    100 * (place as u64) / square
}

// Where planes are unfinished, how much of the next one is in.
#[tactic(auto, unfolding(crate::specs::Verdict::running))]
fn put_running(decoded: Decoded, place: usize, line: &mut Line<'_>)
    ensures same_room { line.new.bytes.ghost_name ≡ line.old.bytes.ghost_name }
    ensures line_value { running decoded.k decoded.unfinished place (stands line.old) ≡ stands line.new }
{
    if decoded.is_whole() {
        return;
    }
    line.put_figure(b" and ", share(decoded.k, place));
    line.put(b"% of the next");
}

// Planes, levels and bits, for those who want them.
#[tactic(auto, unfolding(crate::specs::Verdict::planes))]
fn put_planes(decoded: Decoded, depth: Depth, line: &mut Line<'_>)
    ensures same_room { line.new.bytes.ghost_name ≡ line.old.bytes.ghost_name }
    ensures line_value { planes decoded.k decoded.levels depth.planes decoded.unfinished depth.place depth.bits (stands line.old) ≡ stands line.new }
{
    let finished = depth.planes.saturating_sub(decoded.unfinished);
    line.put_figures(
        b"  planes finished: ",
        u64::from(finished),
        b" of ",
        u64::from(depth.planes),
    );
    put_running(decoded, depth.place, line);
    line.put_figures(
        b", levels: ",
        u64::from(decoded.levels),
        b", bits: ",
        depth.bits as u64,
    );
    line.put(b"\n");
}

// The lines of what was decoded; `ended` says what ended the run.
#[tactic(auto, unfolding(crate::specs::Verdict::report_of))]
pub fn report(
    label: &[u8],
    decoded: Decoded,
    origin: Origin,
    depth: Depth,
    ended: &[u8],
    line: &mut Line<'_>,
)
    ensures same_room { line.new.bytes.ghost_name ≡ line.old.bytes.ghost_name }
    ensures line_value { report_of label.now decoded.k decoded.levels decoded.halvings decoded.softer (record { edition = origin.edition; arm = origin.arm; mount = origin.mount }) depth.planes decoded.blocks depth.bits decoded.unfinished depth.place ended.now (stands line.old) ≡ stands line.new }
{
    put_title(label, decoded, line);
    put_origin(is_long(decoded), origin, line);
    put_blocks(origin.edition, decoded, depth.bits, line);
    decoded.put_worth(line);
    put_planes(decoded, depth, line);
    line.put(ended);
}
