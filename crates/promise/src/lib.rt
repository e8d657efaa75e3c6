// The promise that travels with a picture, or with a thumbnail, in its own file.
#![tactic(auto)]

ghost use Rattle.std.specs.Prelude.{◌≡◌, ◌≤◌, length};
ghost use Rattle.words.specs.Line.{stands};
ghost use Rattle.promise.specs.Promise.{promise_of};

use words::Line;
use worth::Decoded;

// The promise as it stands in the picture's own file: label, verdict, p, whether it is softer, what it is a thumbnail of, and the
// largest grey error.
#[tactic(auto, unfolding(crate::specs::Promise::promise_of, crate::specs::Promise::of255))]
pub fn promise(label: &[u8], decoded: Decoded, line: &mut Line<'_>)
    ensures same_room { line.new.bytes.ghost_name ≡ line.old.bytes.ghost_name }
    ensures line_value { promise_of label.now decoded.k decoded.levels decoded.halvings decoded.softer decoded.unfinished decoded.blocks (stands line.old) ≡ stands line.new }
    ensures upper_bound { line.old.at ≤ length line.old.bytes.now → line.new.at ≤ length line.new.bytes.now }
{
    line.put(label);
    line.put(b" ");
    line.put(decoded.word());
    line.put_figure(b", p = ", u64::from(decoded.unfinished));
    line.put(decoded.softer_word());
    decoded.put_of_side(b", thumbnail from side ", line);
    line.put_figure(b", no grey off by more than ", u64::from(decoded.limit()));
    line.put_either(decoded.blocks <= 1, b" of 255", b" of 255, if of one shot");
}
