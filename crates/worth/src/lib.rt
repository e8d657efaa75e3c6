// What was decoded, a picture or a thumbnail, and what its greys are worth, as a line.
#![tactic(auto)]

ghost use Rattle.std.specs.Prelude.{◌≡◌, ◌-◌, eqb};
ghost use Rattle.paper.specs.Sizes.{grey_limit};
ghost use Rattle.words.specs.Line.{stands, ◌puts◌, figure};
ghost use Rattle.worth.specs.Worth.{word, side_of, of_thumbnail, is_softer, of_softer, one_shot, kind, worth};

use sizes::Size;
use words::Line;

// What was decoded of a picture of side 2 ^ k.
#[derive(Clone, Copy)]
pub struct Decoded {
    pub k: u32,
    pub levels: u32,
    // How often a thumbnail's side was halved, a count: not once for the picture itself.
    pub halvings: u32,
    // Whether a softer one was asked for.
    pub softer: bool,
    // The planes that are not settled.
    pub unfinished: u32,
    // The blocks that were kept.
    pub blocks: usize,
}

impl Decoded {
    // Only a picture with no unfinished plane is whole.
    pub fn is_whole(self) -> bool
        ensures { result ≡ eqb self.unfinished 0 }
    {
        self.unfinished == 0
    }

    // WHOLE, or CUT where planes are unfinished.
    #[tactic(auto, unfolding(crate::specs::Worth::word))]
    pub fn word(self) -> &'static [u8]
        ensures { result.now ≡ word self.unfinished }
    {
        if self.is_whole() { b"WHOLE" } else { b"CUT" }
    }

    // Whether it is a softer picture: where no plane is unfinished nothing was moved, and it is the plain one.
    #[tactic(auto, unfolding(crate::specs::Worth::is_softer))]
    pub fn is_softer(self) -> bool
        ensures { result ≡ is_softer self.softer self.unfinished }
    {
        !self.is_whole() && self.softer
    }

    // The word that is said of a softer picture alone.
    #[tactic(auto, unfolding(crate::specs::Worth::of_softer))]
    pub fn softer_word(self) -> &'static [u8]
        ensures { result.now ≡ of_softer self.softer self.unfinished }
    {
        if self.is_softer() { b", softer" } else { b"" }
    }

    // What was shown: the picture or a thumbnail.
    #[tactic(auto, unfolding(crate::specs::Worth::kind))]
    fn kind(self) -> &'static [u8]
        ensures { result.now ≡ kind self.halvings }
    {
        if self.halvings == 0 {
            b"picture"
        } else {
            b"thumbnail"
        }
    }

    // The condition of every promise: the theorems are about one coding.
    #[tactic(auto, unfolding(crate::specs::Worth::one_shot))]
    fn one_shot(self) -> &'static [u8]
        ensures { result.now ≡ one_shot self.blocks }
    {
        if self.blocks <= 1 {
            b"\n"
        } else {
            b", if its blocks are of one shot\n"
        }
    }

    // How far its greys can be off: a thumbnail undoes fewer levels.
    pub fn limit(self) -> u32
        ensures { result ≡ grey_limit (self.levels - self.halvings) self.unfinished }
    {
        sizes::grey_limit(self.levels.saturating_sub(self.halvings), self.unfinished)
    }

    // A text and the picture's side, said of a thumbnail alone.
    #[tactic(auto, using(words::proofs::Laws::put_nothing), unfolding(crate::specs::Worth::of_thumbnail))]
    pub fn put_of_side(self, text: &[u8], line: &mut Line<'_>)
        ensures same_room { line.new.bytes.ghost_name ≡ line.old.bytes.ghost_name }
        ensures line_value { stands line.old puts of_thumbnail self.halvings text.now puts of_thumbnail self.halvings (figure (side_of self.k)) ≡ stands line.new }
    {
        if self.halvings != 0 {
            line.put_figure(text, side(self.k));
        }
    }

    // How far the greys can be off.
    #[tactic(auto, unfolding(crate::specs::Worth::worth))]
    pub fn put_worth(self, line: &mut Line<'_>)
        ensures same_room { line.new.bytes.ghost_name ≡ line.old.bytes.ghost_name }
        ensures line_value { worth self.levels self.halvings self.unfinished self.blocks (stands line.old) ≡ stands line.new }
    {
        if self.is_whole() {
            line.put(b"  every grey is right: the very ");
            line.put(self.kind());
            line.put(self.one_shot());
            return;
        }
        let limit = self.limit();
        if limit == 255 {
            line.put(b"  any grey may be wrong: too little is left to promise more\n");
            return;
        }
        line.put_figure(b"  no grey is off by more than ", u64::from(limit));
        line.put(b" of 255");
        line.put(self.one_shot());
    }
}

// S, and 0 where it is beyond the largest. No Option: the lines say a number there too, by `side_of`.
#[tactic(auto, unfolding(crate::specs::Worth::side_of))]
pub fn side(k: u32) -> u64
    ensures { result ≡ side_of k }
{
    if sizes::MOST_SIZE < k {
        return 0;
    }
    Size::new(k).side() as u64
}
