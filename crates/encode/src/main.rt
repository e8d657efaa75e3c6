// encode [--arm ARM --mount MOUNT] LABEL LEVELS [BITS] < picture.pgm > record
//
// Makes a record of a square picture, side 8 to 64, of all its bits or of the first BITS: of edition 2 where arm and mount number
// are given, else of edition 1. Where something is wrong, one line on standard error says what, and nothing is written.
// docs/MEMORY.md has the sum of the buffers.
#![tactic(auto)]

ghost use Rattle.std.specs.Prelude.{◌≡◌, ◌≤◌, IfSome};
ghost use Rattle.remarks.specs.Said.{refused_of};
ghost use Rattle.words.specs.Line.{on, stands};

use block::BLOCK;
use desk::{Fault, MOST_BLOCKS, MOST_GREYS, PAYLOAD_ROOM, RECORD_BYTES};
use pgm::MOST_NUMBER;
use std::io::Write;
use std::rt::HostRuntime;
use words::Line;

// What is read of a picture, header and greys, and before it of an argument in digits.
const INPUT_BYTES: usize = 12288;

// What the record is to say of where the picture was shot. Edition 1 says nothing of it.
#[derive(Clone, Copy)]
enum Origin {
    First,
    Second { arm: u32, mount: u32 },
}

impl Origin {
    // Edition, arm and mount number.
    fn named(self) -> (u32, u32, u32) {
        match self {
            Origin::First => (1, 0, 0),
            Origin::Second { arm, mount } => (2, arm, mount),
        }
    }
}

// Which edition is asked for: the second where --arm and --mount stand before LABEL.
#[derive(Clone, Copy)]
enum Asked {
    First,
    Second,
}

// The program's own text, also for a person who used it wrongly.
fn write_help<W: Write>(to: &mut W) {
    let texts: [&[u8]; 5] = [
        b"usage: encode [--arm ARM --mount MOUNT] LABEL LEVELS [BITS]\n           < picture.pgm > record\n\nMakes a record of a square grey picture (binary PGM, side 8, 16, 32 or 64).\n  LABEL   eight characters, 0-9 or A-Z, as on the cartridge; leading zeros count\n",
        b"  LEVELS  how often the picture is halved: 1 to 5, and to 2, 3 or 4 at side 8,\n          16 or 32. Beyond 2 they save little, and widen a cut's promise\n",
        b"  BITS    keep the first BITS bits only: a coarser picture in fewer blocks, 3936\n          bits to each, or 3904 in edition 2. Without it, or beyond the bits of\n          the picture, all are kept\n",
        b"  ARM     the arm that shot it, 1 or 2; with ARM and MOUNT the record is of\n          edition 2, which names both, and without them of edition 1\n  MOUNT   the arm's mount number, from 0 to 16777215\n",
        b"Silent if all is well; else one line on standard error begins with REFUSED, and\nnothing is written. `label encode` does the same with an exit status.\n",
    ];
    for text in texts {
        let _ = pipes::write_all(to, text);
    }
}

// Each function that can fail puts the line that says so into `line`: nothing where all went well.

fn greys_line(most: u32, line: &mut Line<'_>) {
    line.put_figure(b"REFUSED: the greys run to ", u64::from(most));
    line.put_either(
        most == MOST_NUMBER,
        b" or more, and not to 255\n",
        b", and not to 255\n",
    );
}

// A side of six digits or more is not named: the largest numbers are all taken for one.
fn sides_line(width: u32, height: u32, line: &mut Line<'_>) {
    if width.max(height) > 99999 {
        return line.put(b"REFUSED: the picture is too large: its side must be 8, 16, 32 or 64\n");
    }
    line.put_figure(b"REFUSED: the picture is ", u64::from(width));
    line.put_figure(b" by ", u64::from(height));
    line.put(b", and not a square of side 8, 16, 32 or 64\n");
}

// Either the greys end too soon, or a header with long comments took their room.
fn missing_line(came: Option<usize>, wanted: usize, bytes: usize, line: &mut Line<'_>) {
    if bytes == INPUT_BYTES {
        return line.put(
            b"REFUSED: the header is too long: with its greys it may take 12288 bytes\n",
        );
    }
    line.put(b"REFUSED: greys are missing");
    if let Some(came) = came {
        line.put_figure(b": ", came as u64);
        line.put_figure(b" came, and the picture has ", wanted as u64);
    }
    line.put(b"\n");
}

fn fault_line(fault: Fault, bytes: usize, line: &mut Line<'_>) {
    match fault {
        Fault::NoHeader => line.put(
            b"REFUSED: there is no header of a binary PGM (P5) in the first 12288 bytes\n",
        ),
        Fault::Greys(most) => greys_line(most, line),
        Fault::Sides(width, height) => sides_line(width, height, line),
        Fault::Missing(came, wanted) => missing_line(came, wanted, bytes, line),
    }
}

// What is said of a refusal, from the front of the line's room: its words are all there.
fn put_remark(number: u32, line: &mut Line<'_>)
    requires at_front { line.old.at ≡ 0 }
    ensures { refused_of number (on line.old.bytes.now 0) ≡ stands line.new }
{
    remarks::refused(number, line);
}

fn write_record(rt: &HostRuntime, room: &[u8], blocks: usize, line: &mut Line<'_>) {
    if MOST_BLOCKS < blocks || pipes::write_front(&mut rt.stdout(), room, BLOCK * blocks).is_err() {
        line.put(b"REFUSED: standard output could not be written\n");
    }
}

fn encode(
    rt: &HostRuntime,
    origin: Origin,
    input: &[u8],
    label: &[u8],
    levels: u32,
    limit: usize,
    line: &mut Line<'_>,
)
    requires at_front { line.old.at ≡ 0 }
{
    let found = match desk::find(pgm::read_header(input), input.len()) {
        Ok(found) => found,
        Err(fault) => return fault_line(fault, input.len(), line),
    };
    let (edition, arm, mount) = origin.named();
    let mut numbers = [0i32; MOST_GREYS];
    let mut bytes = [0u8; PAYLOAD_ROOM];
    let mut room = [0u8; RECORD_BYTES];
    let made = desk::encode(
        found.k,
        levels,
        edition,
        arm,
        mount,
        input,
        found.start,
        label,
        limit,
        &mut numbers,
        &mut bytes,
        &mut room,
    );
    match made {
        Ok(blocks) => write_record(rt, &room, blocks, line),
        Err(refusal) => put_remark(refusal.number(), line),
    }
}

// LABEL is argument `first`; one that is longer than the room is no label.
fn read_and_encode(
    rt: &HostRuntime,
    origin: Origin,
    first: usize,
    room: &mut [u8],
    levels: u32,
    limit: usize,
    line: &mut Line<'_>,
)
    requires at_front { line.old.at ≡ 0 }
{
    let mut given = [0u8; 16];
    let label = arguments::word(rt, first, &mut given).unwrap_or(b"");
    match pipes::read_all(&mut rt.stdin(), room) {
        Err(_) => line.put(b"REFUSED: standard input could not be read\n"),
        Ok(0) => line.put(b"REFUSED: nothing came on standard input\n"),
        Ok(count) => encode(rt, origin, &room[..count], label, levels, limit, line),
    }
}

// Argument i in digits; where it is none, the line says so.
fn number(
    rt: &HostRuntime,
    i: usize,
    name: &[u8],
    room: &mut [u8],
    line: &mut Line<'_>,
) -> Option<u32>
    ensures silent { IfSome result (λ number. line.new.at ≡ line.old.at) }
{
    let number = arguments::number(rt, i, room);
    if number.is_none() {
        arguments::number_line(rt, i, name, room, line);
    }
    number
}

// The bit limit, argument i, which is beyond all bits where it is not given.
fn limit(rt: &HostRuntime, i: usize, room: &mut [u8], line: &mut Line<'_>) -> Option<u32>
    ensures silent { IfSome result (λ limit. line.new.at ≡ line.old.at) }
{
    if arguments::is_given(rt, i) {
        number(rt, i, b"BITS", room, line)
    } else {
        Some(MOST_NUMBER)
    }
}

// LEVELS and BITS stand behind LABEL, which is argument `first`.
fn read_operands(
    rt: &HostRuntime,
    origin: Origin,
    first: usize,
    room: &mut [u8],
    line: &mut Line<'_>,
)
    requires within { first ≤ 5 }
    requires at_front { line.old.at ≡ 0 }
{
    let Some(levels) = number(rt, first + 1, b"LEVELS", room, line) else {
        return;
    };
    let Some(limit) = limit(rt, first + 2, room, line) else {
        return;
    };
    read_and_encode(rt, origin, first, room, levels, limit as usize, line);
}

// ARM is argument 2, and MOUNT argument 4.
fn read_origin(rt: &HostRuntime, room: &mut [u8], line: &mut Line<'_>) -> Option<Origin>
    ensures silent { IfSome result (λ origin. line.new.at ≡ line.old.at) }
{
    let arm = number(rt, 2, b"ARM", room, line)?;
    let mount = number(rt, 4, b"MOUNT", room, line)?;
    Some(Origin::Second { arm, mount })
}

// Numbers are read through the room that the picture will have.
fn read_arguments(rt: &HostRuntime, asked: Asked, line: &mut Line<'_>)
    requires at_front { line.old.at ≡ 0 }
{
    let mut room = [0u8; INPUT_BYTES];
    match asked {
        Asked::First => read_operands(rt, Origin::First, 1, &mut room, line),
        Asked::Second => {
            if let Some(origin) = read_origin(rt, &mut room, line) {
                read_operands(rt, origin, 5, &mut room, line);
            }
        }
    }
}

// Whether argument i is this word.
fn is_word(rt: &HostRuntime, i: usize, word: &[u8]) -> bool {
    let mut given = [0u8; 16];
    arguments::word(rt, i, &mut given).is_some_and(|given| given == word)
}

// Whether LABEL, LEVELS and at most BITS stand from argument `first` on.
fn operands_given(rt: &HostRuntime, first: usize) -> bool
    requires { first ≤ 5 }
{
    let mut given = [0u8; 16];
    let label = arguments::word(rt, first, &mut given).unwrap_or(b"");
    !arguments::is_option(label)
        && arguments::is_given(rt, first + 1)
        && !arguments::is_given(rt, first + 3)
}

fn run(rt: &HostRuntime, line: &mut Line<'_>)
    requires at_front { line.old.at ≡ 0 }
{
    if is_word(rt, 1, b"--help") {
        write_help(&mut rt.stdout());
    } else if is_word(rt, 1, b"--version") {
        let _ = pipes::write_all(&mut rt.stdout(), b"encode 0.7.0\n");
    } else if operands_given(rt, 1) {
        read_arguments(rt, Asked::First, line);
    } else if is_word(rt, 1, b"--arm") && is_word(rt, 3, b"--mount") && operands_given(rt, 5) {
        read_arguments(rt, Asked::Second, line);
    } else {
        write_help(&mut rt.stderr());
    }
}

fn main(rt: HostRuntime) {
    let mut line = [0u8; 320];
    let mut line = Line::new(&mut line);
    run(&rt, &mut line);
    let _ = pipes::write_all(&mut rt.stderr(), line.text());
}
