// What the desk's programs do between reading and writing: which picture a PGM holds, a picture made a record, and bits
// made a picture, a softer one or a thumbnail of it. All memory is lent.
#![tactic(auto)]

ghost use Rattle.std.specs.Prelude.{◌≡◌, ◌-◌, None, IfOk, IfErr};
ghost use Rattle.std.specs.Option.{ForSome};
ghost use Rattle.desk.specs.Answers.{found_answer, encoding_answer, rebuilding_answer};
ghost use Rattle.desk.specs.Desk.{area_of, found_of, wrong_with, encoding_of, encoding_in, halvings_of, wants_softer, shown_job, rebuilding_of, rebuilding_in, settled_of, settled_in};
ghost use Rattle.transform.specs.Answers.{inverse_answer};

use decoding::Settled;
use pgm::Header;
use refusals::Refusal;
use sizes::Size;
use square_pgm::MOST_HELD;

// What the programs hold: the greys of the largest square, the most blocks of its record in any edition, their bytes and
// their payload.
pub const MOST_GREYS: usize = 4096;

pub const MOST_BLOCKS: usize = 27;

pub const RECORD_BYTES: usize = block::BLOCK * MOST_BLOCKS;

pub const PAYLOAD_ROOM: usize = block::ROOM * MOST_BLOCKS;

// The picture of a PGM: its k, and the place of its greys.
#[derive(Clone, Copy)]
pub struct Found {
    pub k: u32,
    pub start: usize,
}

// What is wrong with a PGM.
#[derive(Clone, Copy, Debug, PartialEq, Eq)]
pub enum Fault {
    NoHeader,
    // Its greys run to another number than 255.
    Greys(u32),
    // It is no square with a side of 8, 16, 32 or 64.
    Sides(u32, u32),
    // Greys are missing: so many bytes stand behind the header, if any do, and the picture has so many greys.
    Missing(Option<usize>, usize),
}

// What is wanted of a record: its picture, a softer one for the eye, or a thumbnail of it, with the side halved so often.
#[derive(Clone, Copy)]
pub enum Wanted {
    Picture,
    Softer,
    Thumbnail(u32),
}

// Why nothing is shown, and what the bits had settled before, where they were decoded.
#[derive(Clone, Copy)]
pub struct Unshown {
    pub refusal: Refusal,
    pub settled: Option<Settled>,
}

impl From<Refusal> for Unshown {
    ghost from_gives = { λ r u. u ≡ record { refusal = r; settled = None } };

    fn from(refusal: Refusal) -> Unshown {
        Unshown {
            refusal,
            settled: None,
        }
    }
}

// The greys of a square, up to the largest that the programs hold. 0 beyond is no sign: the definition `area_of` has it, and the
// front of a buffer that long is lent to a job that refuses such a k.
#[tactic(auto, unfolding(crate::specs::Desk::area_of))]
pub fn area(k: u32) -> usize
    ensures { result ≡ area_of k }
{
    if MOST_HELD < k {
        0
    } else {
        Size::new(k).area()
    }
}

// The picture of a PGM of so many bytes.
#[tactic(auto, unfolding(crate::specs::Desk::found_of, crate::specs::Desk::fault_of, crate::specs::Desk::wrong_with))]
pub fn find(header: Option<Header>, bytes: usize) -> Result<Found, Fault>
    ensures found { found_answer result ≡ found_of header bytes }
    ensures start { IfOk result (λ found. ForSome header (λ h. found.start ≡ h.start)) }
    ensures fault { IfErr result (λ fault. fault ≡ wrong_with header bytes) }
{
    let header = header.ok_or(Fault::NoHeader)?;
    if header.most != 255 {
        return Err(Fault::Greys(header.most));
    }
    let sides = Fault::Sides(header.width, header.height);
    let k = square_pgm::side_of(header.width, header.height).ok_or(sides)?;
    let came = bytes.checked_sub(header.start);
    if came.is_none_or(|came| came < area(k)) {
        return Err(Fault::Missing(came, area(k)));
    }
    Ok(Found {
        k,
        start: header.start,
    })
}

// A picture made a record, at the front of the room.
#[tactic(auto, unfolding(crate::specs::Desk::encoding_of))]
fn encoded(
    k: u32,
    levels: u32,
    edition: u32,
    arm: u32,
    mount: u32,
    picture: &[u8],
    label: &[u8],
    limit: usize,
    numbers: &mut [i32],
    bytes: &mut [u8],
    room: &mut [u8],
) -> Result<usize, Refusal>
    ensures { encoding_of k levels (record { edition = edition; arm = arm; mount = mount }) picture.now label.now limit numbers.old bytes.old room.old ≡ encoding_answer result numbers.new bytes.new room.new }
{
    label::forward(k, levels, picture, numbers)?;
    let written = label::code(k, levels, numbers, limit, bytes)?;
    let n = written.n;
    let b = written.bits;
    label::write(k, levels, n, edition, arm, mount, label, bytes, b, room)
}

// The picture of side 2 ^ k at place `start` of the input made a record, at the front of the room: its count of blocks. The
// numbers' buffer may be longer than the picture; where it is shorter, or the input, that is refused by the length. Edition, arm
// and mount stay numbers, as `record::write`'s: what it answers is promised of every number (`encoding_in`).
pub fn encode(
    k: u32,
    levels: u32,
    edition: u32,
    arm: u32,
    mount: u32,
    input: &[u8],
    start: usize,
    label: &[u8],
    limit: usize,
    numbers: &mut [i32],
    bytes: &mut [u8],
    room: &mut [u8],
) -> Result<usize, Refusal>
    ensures { encoding_in k levels (record { edition = edition; arm = arm; mount = mount }) input.now start label.now limit numbers.old bytes.old room.old ≡ encoding_answer result numbers.new bytes.new room.new }
{
    let area = area(k);
    if input.len() < start || input.len() - start < area || numbers.len() < area {
        return Err(Refusal::Length);
    }
    let end = start + area;
    encoded(
        k,
        levels,
        edition,
        arm,
        mount,
        &input[start..end],
        label,
        limit,
        &mut numbers[..area],
        bytes,
        room,
    )
}

// How often the side of what is wanted was halved.
pub fn halvings(wanted: Wanted) -> u32
    ensures { result ≡ halvings_of wanted }
{
    match wanted {
        Wanted::Picture | Wanted::Softer => 0,
        Wanted::Thumbnail(halvings) => halvings,
    }
}

// Whether the softer picture is wanted.
pub fn wants_softer(wanted: Wanted) -> bool
    ensures { result ≡ wants_softer wanted }
{
    matches!(wanted, Wanted::Softer)
}

// The greys of what is wanted of a picture of side 2 ^ k.
fn shown_area(wanted: Wanted, k: u32) -> usize
    ensures { result ≡ area_of (k - halvings_of wanted) }
{
    area(k.saturating_sub(halvings(wanted)))
}

// The numbers made what is wanted, by what was settled of them.
fn shown(
    wanted: Wanted,
    k: u32,
    levels: u32,
    settled: Settled,
    numbers: &[i32],
    picture: &mut [u8],
    room: &mut [i32],
) -> Result<(), Refusal>
    ensures { shown_job wanted k levels settled.unfinished settled.place numbers.now picture.old room.old ≡ inverse_answer result picture.new room.new }
{
    let Settled {
        unfinished,
        place,
        ..
    } = settled;
    match wanted {
        Wanted::Picture => label::inverse(k, levels, numbers, picture, room),
        Wanted::Softer => label::display(k, levels, unfinished, place, numbers, picture, room),
        Wanted::Thumbnail(halvings) => {
            label::thumbnail(k, levels, halvings, numbers, picture, room)
        }
    }
}

// The first b bits made what is wanted.
#[tactic(auto, unfolding(crate::specs::Desk::rebuilding_of, crate::specs::Desk::settled_of))]
fn rebuilt(
    wanted: Wanted,
    k: u32,
    levels: u32,
    n: u32,
    bytes: &[u8],
    b: usize,
    numbers: &mut [i32],
    picture: &mut [u8],
    room: &mut [i32],
) -> Result<Settled, Unshown>
    ensures outcome { rebuilding_of wanted k levels n bytes.now b numbers.old picture.old room.old ≡ rebuilding_answer result numbers.new picture.new room.new }
    ensures settled { IfErr result (λ unshown. unshown.settled ≡ settled_of k levels n bytes.now b numbers.old) }
{
    let settled = label::decode(k, levels, n, numbers, bytes, b)?;
    match shown(wanted, k, levels, settled, numbers, picture, room) {
        Ok(()) => Ok(settled),
        Err(refusal) => Err(Unshown {
            refusal,
            settled: Some(settled),
        }),
    }
}

// The first b bits made what is wanted of a picture of side 2 ^ k, at the front of buffers that may be longer; where one is
// shorter, that is refused by the length.
#[tactic(auto, unfolding(crate::specs::Desk::settled_in))]
pub fn rebuild(
    wanted: Wanted,
    k: u32,
    levels: u32,
    n: u32,
    bytes: &[u8],
    b: usize,
    numbers: &mut [i32],
    picture: &mut [u8],
    room: &mut [i32],
) -> Result<Settled, Unshown>
    ensures outcome { rebuilding_in wanted k levels n bytes.now b numbers.old picture.old room.old ≡ rebuilding_answer result numbers.new picture.new room.new }
    ensures settled { IfErr result (λ unshown. unshown.settled ≡ settled_in wanted k levels n bytes.now b numbers.old picture.old room.old) }
{
    let shown = shown_area(wanted, k);
    let area = area(k);
    if numbers.len() < area || picture.len() < shown || room.len() < shown {
        return Err(Refusal::Length.into());
    }
    rebuilt(
        wanted,
        k,
        levels,
        n,
        bytes,
        b,
        &mut numbers[..area],
        &mut picture[..shown],
        &mut room[..shown],
    )
}
