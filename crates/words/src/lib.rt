// A line of text, written piece by piece into lent room: texts, and numbers in decimal. It is no Display: every promise of what is
// said (`report_says`, `ended_there` and their like) is of texts that a room may be too short for, and a Formatter knows no room.
#![tactic(auto)]

ghost use Rattle.std.specs.Prelude.{◌≡◌, take};
ghost use Rattle.paper.specs.Lists.{pick};
ghost use Rattle.words.specs.Line.{on, stands, ◌puts◌, figure};

// The room, and the place in it of the next byte. What has no room is left out: a place beyond the room has none. It is no Model:
// each function that is given a line says that the line keeps its room (`same_room`), so that a caller knows its bytes afterwards.
#[derive(Drop)]
pub struct Line<'a> {
    pub bytes: &'a mut [u8],
    pub at: usize,
}

impl<'a> Line<'a> {
    // An empty line in this room.
    pub fn new(bytes: &'a mut [u8]) -> Self
        ensures same_room { result.bytes.ghost_name ≡ bytes.entry.ghost_name }
        ensures line_value { stands result ≡ on bytes.old 0 }
    {
        Line::over(bytes, 0)
    }

    // The line that goes on at place `at` of these bytes.
    pub fn over(bytes: &'a mut [u8], at: usize) -> Self
        ensures same_room { result.bytes.ghost_name ≡ bytes.entry.ghost_name }
        ensures line_value { stands result ≡ on bytes.old at }
    {
        Line { bytes, at }
    }

    // What has been written.
    pub fn text(&self) -> &[u8]
        ensures { result.now ≡ take self.now.at self.now.bytes.now }
    {
        &self.bytes[..self.at.min(self.bytes.len())]
    }

    // A text, if there is room for all of it.
    #[tactic(auto, using(crate::proofs::Laws::no_room))]
    pub fn put(&mut self, text: &[u8])
        ensures same_room { self.new.bytes.ghost_name ≡ self.old.bytes.ghost_name }
        ensures line_value { stands self.old puts text.now ≡ stands self.new }
    {
        let room = self.bytes.len();
        if self.at <= room && text.len() <= room - self.at {
            let next = self.at + text.len();
            self.bytes[self.at..next].copy_from_slice(text);
            self.at = next;
        }
    }

    // A number in decimal.
    pub fn put_number(&mut self, number: u64)
        ensures same_room { self.new.bytes.ghost_name ≡ self.old.bytes.ghost_name }
        ensures line_value { stands self.old puts figure number ≡ stands self.new }
    {
        let mut digits = [0u8; 20];
        let mut first = 19;
        let mut rest = number;
        // A while over what is left of the number: how many digits it has is known only at its end.
        while 10 <= rest {
            digits[first] = b'0' + (rest % 10) as u8;
            first -= 1;
            rest /= 10;
        }
        digits[first] = b'0' + rest as u8;
        self.put(&digits[first..]);
    }

    // A text with a number behind it.
    pub fn put_figure(&mut self, text: &[u8], number: u64)
        ensures same_room { self.new.bytes.ghost_name ≡ self.old.bytes.ghost_name }
        ensures line_value { stands self.old puts text.now puts figure number ≡ stands self.new }
    {
        self.put(text);
        self.put_number(number);
    }

    // Two texts, each with a number behind it.
    pub fn put_figures(&mut self, one: &[u8], first: u64, other: &[u8], second: u64)
        ensures same_room { self.new.bytes.ghost_name ≡ self.old.bytes.ghost_name }
        ensures line_value { stands self.old puts one.now puts figure first puts other.now puts figure second ≡ stands self.new }
    {
        self.put_figure(one, first);
        self.put_figure(other, second);
    }

    // One of two texts.
    pub fn put_either(&mut self, first: bool, one: &[u8], other: &[u8])
        ensures same_room { self.new.bytes.ghost_name ≡ self.old.bytes.ghost_name }
        ensures line_value { stands self.old puts pick first one.now other.now ≡ stands self.new }
    {
        self.put(if first { one } else { other });
    }
}
