// The title of what decode says of a picture, plain or softer, or of a thumbnail, as a line: the verdict, label and side, arm and
// mount, blocks.
#![tactic(auto)]

ghost use Rattle.std.specs.Prelude.{◌≡◌};
ghost use Rattle.words.specs.Line.{stands};
ghost use Rattle.title.specs.Title.{titled, is_long, shot_by, awaits, counted};

use block::CHECKS;
use words::Line;
use worth::{Decoded, side};

// What a record says of where its picture was shot. Edition 1 says nothing of it. Numbers of any size, since `report_of`
// says what is put for each.
#[derive(Clone, Copy)]
pub struct Origin {
    pub edition: u32,
    pub arm: u32,
    pub mount: u32,
}

// The verdict, the label, whether it is a thumbnail or softer, and the side.
#[tactic(auto, unfolding(crate::specs::Title::titled, worth::specs::Worth::of_thumbnail))]
pub fn put_title(label: &[u8], decoded: Decoded, line: &mut Line<'_>)
    ensures same_room { line.new.bytes.ghost_name ≡ line.old.bytes.ghost_name }
    ensures line_value { titled label.now decoded.k decoded.halvings decoded.softer decoded.unfinished (stands line.old) ≡ stands line.new }
{
    line.put(decoded.word());
    line.put(b" ");
    line.put(label);
    line.put_either(decoded.halvings == 0, b"", b", thumbnail");
    line.put(decoded.softer_word());
    let shown = decoded.k.saturating_sub(decoded.halvings);
    line.put_figure(b", side ", side(shown));
    decoded.put_of_side(b" of ", line);
}

// Whether the title is long: a thumbnail's or a softer picture's.
#[tactic(auto, unfolding(crate::specs::Title::is_long))]
pub fn is_long(decoded: Decoded) -> bool
    ensures { result ≡ is_long decoded.halvings decoded.softer decoded.unfinished }
{
    decoded.halvings != 0 || decoded.is_softer()
}

// The arm and its mount number, which edition 1 does not name, and the end of the title.
#[tactic(auto, unfolding(crate::specs::Title::shot_by, crate::specs::Title::colon))]
pub fn put_origin(long: bool, origin: Origin, line: &mut Line<'_>)
    ensures same_room { line.new.bytes.ghost_name ≡ line.old.bytes.ghost_name }
    ensures line_value { shot_by long (record { edition = origin.edition; arm = origin.arm; mount = origin.mount }) (stands line.old) ≡ stands line.new }
{
    if origin.edition == 1 {
        line.put(b": ");
        return;
    }
    line.put_figures(
        b", arm ",
        u64::from(origin.arm),
        b", mount ",
        u64::from(origin.mount),
    );
    line.put_either(long, b":\n  ", b": ");
}

// Whether more blocks were expected: planes are unfinished, and the bits fill all blocks.
#[tactic(auto, using(block::proofs::Editions::start_most), unfolding(crate::specs::Title::awaits))]
fn awaits_more(edition: u32, decoded: Decoded, bits: usize) -> bool
    ensures { result ≡ awaits edition decoded.blocks bits decoded.unfinished }
{
    let full = 8 * (CHECKS - block::payload_start(edition));
    !decoded.is_whole() && full.checked_mul(decoded.blocks) == Some(bits)
}

// The blocks that were kept, and whether more were expected: said of every edition (`counted`).
#[tactic(auto, unfolding(crate::specs::Title::counted, crate::specs::Title::plural, crate::specs::Title::expected))]
pub fn put_blocks(edition: u32, decoded: Decoded, bits: usize, line: &mut Line<'_>)
    ensures same_room { line.new.bytes.ghost_name ≡ line.old.bytes.ghost_name }
    ensures line_value { counted edition decoded.blocks bits decoded.unfinished (stands line.old) ≡ stands line.new }
{
    let more = awaits_more(edition, decoded, bits);
    line.put_number(decoded.blocks as u64);
    line.put_either(decoded.blocks == 1, b" block, ", b" blocks, ");
    line.put_either(more, b"more expected\n", b"no more expected\n");
}
