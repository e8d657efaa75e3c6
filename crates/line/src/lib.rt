// The 5/3 rule on one line, both ways.
#![tactic(auto)]

ghost use Rattle.std.specs.Prelude.{◌≡◌, ◌+◌, ◌*◌, ◌/◌, ◌-◌, ◌<◌, min, length};
ghost use Rattle.paper.specs.Line.{high_at, line_forward, even_at, line_back};
ghost use Rattle.line.specs.Each.{Each, line_limit};

// The pair after pair i of h: after the last stands the last.
fn pair_after(i: usize, h: usize) -> usize
    requires { i < h }
    ensures { result ≡ min (i + 1) (h - 1) }
{
    (i + 1).min(h - 1)
}

// high[i]
fn high_at(x: &[i32], h: usize, i: usize) -> i32
    requires each { Each line_limit x.now }
    requires x_len { length x.now ≡ 2 * h }
    requires i_lt_h { i < h }
    ensures { result ≡ high_at x.now i }
{
    lift::high_of(x[2 * i + 1], x[2 * i], x[2 * pair_after(i, h)])
}

// x[2i], back from the lows and highs. Before the first pair stands the first.
fn even_at(y: &[i32], h: usize, i: usize) -> i32
    requires each { Each line_limit y.now }
    requires y_len { length y.now ≡ 2 * h }
    requires i_lt_h { i < h }
    ensures { result ≡ even_at y.now h i }
{
    lift::even_of(y[i], y[h + i.saturating_sub(1)], y[h + i])
}

// The line x into out, lows before highs.
pub fn forward(x: &[i32], out: &mut [i32])
    requires each { Each line_limit x.now }
    requires x_len { length x.now ≡ 2 * (length x.now / 2) }
    requires x_nonzero { 0 < length x.now }
    requires out_len { length out.old ≡ length x.now }
    ensures { out.new ≡ line_forward x.now }
{
    let h = x.len() / 2;
    let mut last = high_at(x, h, 0);
    for i in 0..h {
        let high = high_at(x, h, i);
        out[i] = lift::low_of(x[2 * i], last, high);
        out[h + i] = high;
        last = high;
    }
}

// The lows and highs y back into out, as samples.
pub fn back(y: &[i32], out: &mut [i32])
    requires each { Each line_limit y.now }
    requires y_len { length y.now ≡ 2 * (length y.now / 2) }
    requires y_nonzero { 0 < length y.now }
    requires out_len { length out.old ≡ length y.now }
    ensures { out.new ≡ line_back y.now }
{
    let h = y.len() / 2;
    let mut left = even_at(y, h, 0);
    for i in 0..h {
        let right = even_at(y, h, pair_after(i, h));
        out[2 * i] = left;
        out[2 * i + 1] = lift::odd_of(y[h + i], left, right);
        left = right;
    }
}
