// decode [--softer | --thumbnail R] LABEL < record > picture.pgm
//
// Makes the picture of a record, whole or cut anywhere, side 8 to 64, if it has the label expected, or a softer one for the eye,
// or a thumbnail of it, its side halved R times. Standard error says what it is worth, the verdict first; where something is
// wrong, it says what, and nothing is written. docs/MEMORY.md has the sum of the buffers.
#![tactic(auto)]

ghost use Rattle.std.specs.Prelude.{◌≡◌, ◌≤◌, length};
ghost use Rattle.square_pgm.specs.Text.{headed};
ghost use Rattle.remarks.specs.Said.{refused_of as remark_of};
ghost use Rattle.faults.specs.Faults.{ended_of, refused_of};
ghost use Rattle.promise.specs.Promise.{promise_of};
ghost use Rattle.verdict.specs.Verdict.{report_of};
ghost use Rattle.words.specs.Line.{on, stands};

use desk::{MOST_GREYS, PAYLOAD_ROOM, RECORD_BYTES, Unshown, Wanted};
use record::Kept;
use refusals::Refusal;
use square_pgm::MOST_HELD;
use std::io;
use std::io::Write;
use std::rt::HostRuntime;
use title::Origin;
use verdict::Depth;
use words::Line;
use worth::Decoded;

// The program's own text, also for a person who used it wrongly.
fn write_help<W: Write>(to: &mut W) {
    let texts: [&[u8]; 4] = [
        b"usage: decode [--softer | --thumbnail R] LABEL < record > picture.pgm\n\nMakes the picture (PGM) of a record, whole or cut anywhere, side 8 to 64.\n  LABEL  the label expected: eight characters, 0-9 or A-Z; leading zeros count\n",
        b"  --softer       makes a cut one softer for the eye: half of what is unknown is\n                 added to the magnitude of each number but 0; the promise stays\n  --thumbnail R  makes a thumbnail of it, the side halved R times: from 1 to the\n                 levels of the record\n",
        b"Standard error says WHOLE, CUT or REFUSED, and what the picture is worth; a\nrefusal writes no picture. `label decode` does the same with an exit status.\n",
        b"What can't be promised: blocks of two shots under one label, with the same side,\nlevels and planes, splice unnoticed in edition 1, in edition 2 only if arm and\nmount number are the same too; no line here tells.\n",
    ];
    for text in texts {
        let _ = pipes::write_all(to, text);
    }
}

// Each function puts the lines that are said at its end into `line`, which stands at the front of its room (`at_front`): so what the
// functions here that promise their words say is what `report_there`, `refused_there`, `ended_there` and their like find all there.

fn short_line(count: usize, line: &mut Line<'_>)
    requires at_front { line.old.at ≡ 0 }
{
    line.put_figure(b"REFUSED: no whole block came, only ", count as u64);
    line.put(b" of 512 bytes (6)\n");
}

fn put_refused(label: &[u8], line: &mut Line<'_>)
    requires at_front { line.old.at ≡ 0 }
{
    line.put(b"REFUSED ");
    line.put(label);
}

fn side_line(label: &[u8], k: u32, line: &mut Line<'_>)
    requires at_front { line.old.at ≡ 0 }
{
    put_refused(label, line);
    line.put_figure(b": side ", worth::side(k));
    line.put(b", and this program holds sides up to 64\n");
}

fn halvings_line(label: &[u8], levels: u32, line: &mut Line<'_>)
    requires at_front { line.old.at ≡ 0 }
{
    put_refused(label, line);
    line.put_figure(b": R goes from 1 to ", u64::from(levels));
    line.put(b", the levels of this record (13)\n");
}

// What is said of what was decoded, from the front.
fn put_report(
    label: &[u8],
    decoded: Decoded,
    origin: Origin,
    depth: Depth,
    ended: &[u8],
    line: &mut Line<'_>,
)
    requires at_front { line.old.at ≡ 0 }
    ensures { report_of label.now decoded.k decoded.levels decoded.halvings decoded.softer (record { edition = origin.edition; arm = origin.arm; mount = origin.mount }) depth.planes decoded.blocks depth.bits decoded.unfinished depth.place ended.now (on line.old.bytes.now 0) ≡ stands line.new }
{
    verdict::report(label, decoded, origin, depth, ended, line);
}

// What is said of a refusal that concerns no block, from the front.
fn put_remark(number: u32, line: &mut Line<'_>)
    requires at_front { line.old.at ≡ 0 }
    ensures { remark_of number (on line.old.bytes.now 0) ≡ stands line.new }
{
    remarks::refused(number, line);
}

// What ended the run, from the front of its own room.
fn put_ended(number: u32, blocks: &[u8], label: &[u8], i: usize, line: &mut Line<'_>)
    requires at_front { line.old.at ≡ 0 }
    ensures { ended_of number blocks.now label.now i (on line.old.bytes.now 0) ≡ stands line.new }
{
    faults::ended(number, blocks, label, i, line);
}

// The promise, from the front of its own room.
fn put_promise(label: &[u8], decoded: Decoded, line: &mut Line<'_>)
    requires at_front { line.old.at ≡ 0 }
    ensures { promise_of label.now decoded.k decoded.levels decoded.halvings decoded.softer decoded.unfinished decoded.blocks (on line.old.bytes.now 0) ≡ stands line.new }
{
    promise::promise(label, decoded, line);
}

// The PGM's header, from the front of its own room.
fn put_header(k: u32, promise: &[u8], line: &mut Line<'_>)
    requires at_front { line.old.at ≡ 0 }
    ensures { headed k promise.now (on line.old.bytes.now 0) ≡ stands line.new }
{
    square_pgm::write_header(k, promise, line);
}

// What is said of a record whose block 0 is not kept, from the front.
fn put_fault(number: u32, blocks: &[u8], label: &[u8], line: &mut Line<'_>)
    requires at_front { line.old.at ≡ 0 }
    ensures { refused_of number blocks.now label.now (on line.old.bytes.now 0) ≡ stands line.new }
{
    faults::refused(number, blocks, label, line);
}

// The header with its promise, and the greys of what is shown.
fn write_picture(
    rt: &HostRuntime,
    decoded: Decoded,
    label: &[u8],
    picture: &[u8],
) -> io::Result<()> {
    let k = decoded.k.saturating_sub(decoded.halvings);
    let mut promise = [0u8; 160];
    let mut promise = Line::new(&mut promise);
    put_promise(label, decoded, &mut promise);
    let mut header = [0u8; 208];
    let mut header = Line::new(&mut header);
    put_header(k, promise.text(), &mut header);
    pipes::write_all(&mut rt.stdout(), header.text())?;
    pipes::write_front(&mut rt.stdout(), picture, desk::area(k))
}

fn rebuild(
    rt: &HostRuntime,
    wanted: Wanted,
    kept: Kept,
    payload: &[u8],
    label: &[u8],
    ended: &[u8],
    picture: &mut [u8],
    line: &mut Line<'_>,
)
    requires at_front { line.old.at ≡ 0 }
{
    let mut numbers = [0i32; MOST_GREYS];
    let mut working = [0i32; MOST_GREYS];
    let rebuilt = desk::rebuild(
        wanted,
        kept.k,
        kept.levels,
        kept.n,
        payload,
        kept.bits,
        &mut numbers,
        picture,
        &mut working,
    );
    let settled = match rebuilt {
        Ok(settled) => settled,
        Err(
            Unshown {
                refusal: Refusal::Halvings,
                ..
            },
        ) => return halvings_line(label, kept.levels, line),
        Err(unshown) => return put_remark(unshown.refusal.number(), line),
    };
    let decoded = Decoded {
        k: kept.k,
        levels: kept.levels,
        halvings: desk::halvings(wanted),
        softer: desk::wants_softer(wanted),
        unfinished: settled.unfinished,
        blocks: kept.blocks,
    };
    if write_picture(rt, decoded, label, picture).is_err() {
        return line.put(b"REFUSED: standard output could not be written\n");
    }
    let origin = Origin {
        edition: kept.edition,
        arm: kept.arm,
        mount: kept.mount,
    };
    let depth = Depth {
        planes: kept.n,
        bits: kept.bits,
        place: settled.place,
    };
    put_report(label, decoded, origin, depth, ended, line);
}

// The blocks are of no use once they are read and what ended the run is said, and their memory is the picture's: every grey
// of it is written, or none is shown.
fn decode(
    rt: &HostRuntime,
    wanted: Wanted,
    room: &mut [u8],
    count: usize,
    label: &[u8],
    line: &mut Line<'_>,
)
    requires within { count ≤ length room.old }
    requires at_front { line.old.at ≡ 0 }
{
    let mut payload = [0u8; PAYLOAD_ROOM];
    let kept = match label::read(&room[..count], label, &mut payload) {
        Ok(kept) => kept,
        Err(Refusal::Room) => return short_line(count, line),
        Err(Refusal::Label) => return put_remark(Refusal::Label.number(), line),
        Err(refusal) => return put_fault(refusal.number(), &room[..count], label, line),
    };
    if MOST_HELD < kept.k {
        return side_line(label, kept.k, line);
    }
    let mut ended = [0u8; 464];
    let mut ended = Line::new(&mut ended);
    put_ended(
        kept.ended.map_or(0, Refusal::number),
        &room[..count],
        label,
        kept.blocks,
        &mut ended,
    );
    rebuild(rt, wanted, kept, &payload, label, ended.text(), room, line);
}

// A frame of its own: the large buffers are on the stack only where a record is to be read, so that a wrong R takes little of it.
#[inline(never)]
fn read_and_decode(
    rt: &HostRuntime,
    wanted: Wanted,
    room: &mut [u8],
    label: &[u8],
    line: &mut Line<'_>,
)
    requires at_front { line.old.at ≡ 0 }
{
    match pipes::read_all(&mut rt.stdin(), room) {
        Ok(count) => decode(rt, wanted, room, count, label, line),
        Err(_) => line.put(b"REFUSED: standard input could not be read\n"),
    }
}

// What is asked for: the picture, as it is or softer, or a thumbnail, for which R is argument 2.
#[derive(Clone, Copy)]
enum Asked {
    Picture,
    Softer,
    Thumbnail,
}

// R is read through the room that the blocks will have.
fn wanted(rt: &HostRuntime, asked: Asked, room: &mut [u8]) -> Option<Wanted> {
    match asked {
        Asked::Picture => Some(Wanted::Picture),
        Asked::Softer => Some(Wanted::Softer),
        Asked::Thumbnail => arguments::number(rt, 2, room).map(Wanted::Thumbnail),
    }
}

// All that can be asked for is shown from here, so that the room of the blocks stands on the stack once.
fn show(rt: &HostRuntime, asked: Asked, label: &[u8], line: &mut Line<'_>)
    requires at_front { line.old.at ≡ 0 }
{
    let mut room = [0u8; RECORD_BYTES];
    match wanted(rt, asked, &mut room) {
        Some(wanted) => read_and_decode(rt, wanted, &mut room, label, line),
        None => arguments::number_line(rt, 2, b"R", &mut room, line),
    }
}

// The label, argument i, where it is the last one and no option. One that is longer than the room is no label.
fn last_label<'a>(rt: &HostRuntime, i: usize, room: &'a mut [u8]) -> Option<&'a [u8]>
    requires { i ≤ 3 }
{
    if !arguments::is_given(rt, i) || arguments::is_given(rt, i + 1) {
        return None;
    }
    let label = arguments::word(rt, i, room).unwrap_or(b"");
    if arguments::is_option(label) {
        return None;
    }
    Some(label)
}

// The label is argument i: the first, or what stands behind --softer, or behind --thumbnail and R.
fn run_asked(rt: &HostRuntime, asked: Asked, i: usize, line: &mut Line<'_>)
    requires within { i ≤ 3 }
    requires at_front { line.old.at ≡ 0 }
{
    let mut given = [0u8; 16];
    match last_label(rt, i, &mut given) {
        Some(label) => show(rt, asked, label, line),
        None => write_help(&mut rt.stderr()),
    }
}

fn run(rt: &HostRuntime, line: &mut Line<'_>)
    requires at_front { line.old.at ≡ 0 }
{
    let mut given = [0u8; 16];
    match arguments::word(rt, 1, &mut given) {
        Some(b"--help") => write_help(&mut rt.stdout()),
        Some(b"--version") => {
            let _ = pipes::write_all(&mut rt.stdout(), b"decode 0.7.0\n");
        }
        Some(b"--thumbnail") => run_asked(rt, Asked::Thumbnail, 3, line),
        Some(b"--softer") => run_asked(rt, Asked::Softer, 2, line),
        _ => run_asked(rt, Asked::Picture, 1, line),
    }
}

fn main(rt: HostRuntime) {
    let mut line = [0u8; 864];
    let mut line = Line::new(&mut line);
    run(&rt, &mut line);
    let _ = pipes::write_all(&mut rt.stderr(), line.text());
}
