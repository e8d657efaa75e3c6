// The header of a binary PGM (P5), read and written.
#![tactic(auto)]

ghost use Rattle.std.specs.Prelude.{◌≡◌, true, false, ◌+◌, ◌≤◌, drop, position};
ghost use Rattle.pgm.specs.Header.{is_space, is_line_end, is_digit, is_passed, is_inside, past_space, past_line, most_number, with_digit, number_from, whole_number, field_at, raster_at, past_magic, header_of};

// The largest number that is told from others, so that no string of digits overflows; all beyond it are taken for it.
pub const MOST_NUMBER: u32 = 99999999;

// A number of the header, and the place behind it.
#[derive(Clone, Copy)]
pub struct Number {
    pub value: u32,
    pub next: usize,
}

// The picture's sides and its largest grey; where the raster begins.
#[derive(Clone, Copy)]
pub struct Header {
    pub width: u32,
    pub height: u32,
    pub most: u32,
    pub start: usize,
}

#[tactic(auto, unfolding(crate::specs::Header::is_space))]
fn is_space(c: u8) -> bool
    ensures { result ≡ is_space c }
{
    matches!(c, b' ' | b'\t'..=b'\r')
}

#[tactic(auto, unfolding(crate::specs::Header::is_line_end))]
fn is_line_end(c: u8) -> bool
    ensures { result ≡ is_line_end c }
{
    matches!(c, b'\n' | b'\r')
}

// Whether c is passed over, inside a comment or outside.
#[tactic(auto, unfolding(crate::specs::Header::is_passed))]
fn is_passed(inside: bool, c: u8) -> bool
    ensures { result ≡ is_passed inside c }
{
    inside || c == b'#' || is_space(c)
}

// Whether the byte after c is inside a comment.
#[tactic(auto, unfolding(crate::specs::Header::is_inside))]
fn is_inside(inside: bool, c: u8) -> bool
    ensures { result ≡ is_inside inside c }
{
    if inside { !is_line_end(c) } else { c == b'#' }
}

// The place of the first byte from `at` on that is neither white space nor in a comment.
fn past_space(bytes: &[u8], at: usize) -> usize
    ensures { result ≡ past_space false at (drop at bytes.now) }
{
    let mut inside = false;
    for i in at..bytes.len() {
        if !is_passed(inside, bytes[i]) {
            return i;
        }
        inside = is_inside(inside, bytes[i]);
    }
    bytes.len().max(at)
}

// How many bytes stand before the next line end.
fn line_length(bytes: &[u8]) -> Option<usize>
    ensures { result ≡ position is_line_end bytes.now }
{
    bytes.iter().position(|&c| is_line_end(c))
}

// The place behind the next line end from `at` on.
#[tactic(auto, unfolding(crate::specs::Header::past_line))]
fn past_line(bytes: &[u8], at: usize) -> Option<usize>
    ensures { result ≡ past_line at (drop at bytes.now) }
{
    let length = line_length(bytes.get(at..)?)?;
    Some(at + length + 1)
}

// One digit more.
#[tactic(auto, unfolding(crate::specs::Header::with_digit, crate::specs::Header::is_digit))]
fn with_digit(value: u32, c: u8) -> u32
    requires value_le_most_number { value ≤ most_number }
    requires c_value { is_digit c ≡ true }
    ensures { result ≡ with_digit value c }
{
    MOST_NUMBER.min(10 * value + u32::from(c - b'0'))
}

// The digits from `at` on.
pub fn number_from(bytes: &[u8], at: usize) -> Number
    ensures { result ≡ number_from 0 at (drop at bytes.now) }
{
    let mut value = 0;
    for i in at..bytes.len() {
        if !bytes[i].is_ascii_digit() {
            return Number { value, next: i };
        }
        value = with_digit(value, bytes[i]);
    }
    Number {
        value,
        next: bytes.len().max(at),
    }
}

// A text that is digits and nothing else; an empty one is no number.
#[tactic(auto, unfolding(crate::specs::Header::whole_number))]
pub fn whole_number(text: &[u8]) -> Option<u32>
    ensures { result ≡ whole_number text.now }
{
    let number = number_from(text, 0);
    if text.is_empty() || number.next != text.len() {
        return None;
    }
    Some(number.value)
}

// A number with white space or a comment before it.
#[tactic(auto, unfolding(crate::specs::Header::field_at))]
fn field(bytes: &[u8], at: usize) -> Option<Number>
    ensures { result ≡ field_at bytes.now at }
{
    let from = past_space(bytes, at);
    let number = number_from(bytes, from);
    if from == at || number.next == from {
        return None;
    }
    Some(number)
}

// The raster behind one white space byte or one comment.
#[tactic(auto, unfolding(crate::specs::Header::raster_at, crate::specs::Header::past_line, crate::specs::Header::is_space))]
fn raster(bytes: &[u8], at: usize) -> Option<usize>
    ensures { result ≡ raster_at bytes.now at }
{
    match *bytes.get(at)? {
        b'#' => past_line(bytes, at + 1),
        c if is_space(c) => Some(at + 1),
        _ => None,
    }
}

// The place behind the magic number.
#[tactic(auto, unfolding(crate::specs::Header::past_magic))]
fn past_magic(bytes: &[u8]) -> Option<usize>
    ensures { result ≡ past_magic bytes.now }
{
    bytes.starts_with(b"P5").then_some(2)
}

// The header at the front of `bytes`.
#[tactic(auto, unfolding(crate::specs::Header::header_of))]
pub fn read_header(bytes: &[u8]) -> Option<Header>
    ensures { result ≡ header_of bytes.now }
{
    let width = field(bytes, past_magic(bytes)?)?;
    let height = field(bytes, width.next)?;
    let most = field(bytes, height.next)?;
    let start = raster(bytes, most.next)?;
    Some(Header {
        width: width.value,
        height: height.value,
        most: most.value,
        start,
    })
}
