// A pass along the lines of a square in Z order, in lent memory: rows or columns, by whatever changes a line.
#![tactic(auto)]

ghost use Rattle.std.specs.Prelude.{◌≡◌, ◌-◌, ◌^◌, ◌<◌, length, List, ℤ};
ghost use Rattle.paper.specs.Square.{place_of, line, along};
ghost use Rattle.line.specs.Each.{Each, line_limit};
ghost use Rattle.pass.specs.Turns.{down, Turns, Put};

use sizes::Size;

// The lines of a square.
#[derive(Clone, Copy)]
pub enum Lines {
    Rows,
    Columns,
}

// Line l of a square.
#[derive(Clone, Copy)]
struct Line {
    size: Size,
    lines: Lines,
    l: usize,
}

impl Line {
    // The Z place of number i of the line.
    #[tactic(auto, unfolding(paper::specs::Square::place_of))]
    fn place(&self, i: usize) -> places::ZPlace
        ensures { result.0 ≡ place_of self.now.size (down self.now.lines) self.now.l i }
    {
        match self.lines {
            Lines::Rows => places::z_of(self.size, self.l, i),
            Lines::Columns => places::z_of(self.size, i, self.l),
        }
    }

    // The line into `out`.
    fn gather(&self, xs: &[i32], out: &mut [i32])
        requires xs_len { length xs.now ≡ 4 ^ self.now.size }
        requires out_len { length out.old ≡ 2 ^ self.now.size }
        ensures { out.new ≡ line self.now.size (down self.now.lines) xs.now self.now.l }
    {
        for (i, x) in out.iter_mut().enumerate() {
            *x = places::at(xs, self.place(i));
        }
    }

    // `v` into the line.
    fn scatter(&self, v: &[i32], xs: &mut [i32])
        requires l_bound { self.now.l < 2 ^ self.now.size }
        requires xs_len { length xs.old ≡ 4 ^ self.now.size }
        requires v_len { length v.now ≡ 2 ^ self.now.size }
        ensures { Put self.now.size (down self.now.lines) self.now.l (2 ^ self.now.size) v.now xs.old xs.new }
    {
        for (i, x) in v.iter().enumerate() {
            places::set(xs, self.place(i), *x);
        }
    }

    // The line turned, in its place. Of the working room `a` ends as the line, `b` as the line turned.
    fn turn<F: Fn(&[i32], &mut [i32])>(
        &self,
        turn: &F,
        xs: &mut [i32],
        a: &mut [i32],
        b: &mut [i32],
    )
        ghost rule: { List ℤ → List ℤ }
        requires turns { Turns F.Fn turn.now rule }
        requires size_nonzero { 0 < self.now.size }
        requires l_bound { self.now.l < 2 ^ self.now.size }
        requires xs_len { length xs.old ≡ 4 ^ self.now.size }
        requires each { Each line_limit (line self.now.size (down self.now.lines) xs.old self.now.l) }
        requires a_len { length a.old ≡ 2 ^ self.now.size }
        requires b_len { length b.old ≡ 2 ^ self.now.size }
        ensures put { Put self.now.size (down self.now.lines) self.now.l (2 ^ self.now.size) (rule (line self.now.size (down self.now.lines) xs.old self.now.l)) xs.old xs.new }
        ensures a_after { a.new ≡ line self.now.size (down self.now.lines) xs.old self.now.l }
        ensures b_after { b.new ≡ rule (line self.now.size (down self.now.lines) xs.old self.now.l) }
    {
        self.gather(xs, a);
        turn(a, b);
        self.scatter(b, xs);
    }
}

// Every line of the square, turned. The working room ends with the last line, as it was and turned.
pub fn turn_lines<F: Fn(&[i32], &mut [i32])>(
    size: Size,
    lines: Lines,
    turn: F,
    xs: &mut [i32],
    a: &mut [i32],
    b: &mut [i32],
)
    ghost rule: { List ℤ → List ℤ }
    requires turns { Turns F.Fn turn rule }
    requires size_nonzero { 0 < size }
    requires xs_len { length xs.old ≡ 4 ^ size }
    requires each { Each line_limit xs.old }
    requires a_len { length a.old ≡ 2 ^ size }
    requires b_len { length b.old ≡ 2 ^ size }
    ensures xs_after { xs.new ≡ along rule size (down lines) xs.old }
    ensures a_after { a.new ≡ line size (down lines) xs.old (2 ^ size - 1) }
    ensures b_after { b.new ≡ rule (line size (down lines) xs.old (2 ^ size - 1)) }
{
    for l in 0..size.side() {
        Line { size, lines, l }.turn(&turn, xs, a, b);
    }
}
