// For how many values of an axis a constraint that fails may go on failing: a guess from what brings its value nearer
// to 0 as the axis goes up, the axis itself or one division. It is exact for these; where two of them do, it is 1.
// Nothing is promised of it but its range: whoever takes it tests it.
ghost use Rattle.std.specs.Prelude.{◌≡◌, ◌≤◌, ◌<◌, length};
ghost use Rattle.integers.specs.Z.{Within};
ghost use Rattle.model.specs.Limits.{most_axes};
ghost use Rattle.bounds.specs.Ends.{Ends, Step};
ghost use Rattle.codec.specs.Bytes.{division_body, constraint_body};
ghost use Rattle.codec.specs.Places.{Opened};
ghost use Rattle.bounds.specs.Sizes.{most_axes_part, most_quotient};
ghost use Rattle.bounds.specs.Rows.{Loose, Numbered};
ghost use Rattle.runs.specs.Helping.{noted_of, Helping, HelpedAt};

// Whether a number with the coefficient a comes nearer to holding as its axis goes up: a constraint fails because it is
// too low (`up`), or, an equality, too high.
fn helps(a: i64, up: bool) -> bool {
    if up { 0 < a } else { a < 0 }
}

// The same of a division with the coefficient a, in which the axis has the coefficient b.
fn division_helps(a: i64, b: i64, up: bool) -> bool {
    b != 0 && helps(a, up == (0 < b))
}

// Which of the divisions so far helps: none, one with its number and its place, or several.
#[derive(Clone, Copy)]
pub enum Helper {
    Nothing,
    One { number: usize, place: usize },
    Several,
}

// The same with division number j at a place, which helps or does not.
fn noted(before: Helper, j: usize, at: usize, yes: bool) -> Helper
    ensures { result ≡ noted_of before j at yes }
{
    if !yes {
        return before;
    }
    match before {
        Helper::Nothing => Helper::One {
            number: j,
            place: at,
        },
        Helper::One { .. } | Helper::Several => Helper::Several,
    }
}

// Of the divisions from `start` on, the one that helps the constraint with body t as axis k goes up.
fn helping_division(s: &[u8], start: usize, t: &[u8], k: usize, up: bool) -> Helper
    requires { Opened s.now start × (k < most_axes) × (constraint_body ≤ length t.now) }
    ensures { Helping s.now result }
{
    let mut g = Helper::Nothing;
    let mut j = 0;
    let mut at = start;
    while codec::division_at(s, at) {
        let u = codec::body(s, at);
        let a = codec::s16_at(t, codec::DIVISIONS_PLACE + 2 * j);
        let b = codec::s16_at(u, codec::AXES_PLACE + 2 * k);
        g = noted(g, j, at, division_helps(a, b, up));
        j += 1;
        at = codec::next(s, at);
    }
    g
}

// The size of a coefficient that helps, otherwise 0.
fn rising(a: i64, up: bool) -> u64 {
    if helps(a, up) { a.unsigned_abs() } else { 0 }
}

// How often a is added to a number that is `short` below 0 until it is there, at most `most`.
fn linear(short: u64, a: u64, most: u64) -> u64
    requires { 0 < most }
    ensures { (0 < result) × (result ≤ most) }
{
    if short == 0 {
        return 1;
    }
    if a == 0 {
        return most;
    }
    short.div_ceil(a).min(most)
}

// The same where c times the quotient of a number by e is added, and the number, of which the division leaves m over,
// grows by b. No axis has 2^40 values.
fn stepped(short: u64, c: u64, e: u64, m: u64, b: u64, most: u64) -> u64
    requires { (0 < most) × (e < 65536) }
    ensures { (0 < result) × (result ≤ most) }
{
    if short == 0 || c == 0 {
        return 1;
    }
    let q = (short - 1) / c;
    if 1099511627776 <= q {
        return most;
    }
    if e <= m {
        return 1;
    }
    linear(e * (q + 1) - m, b, most)
}

// What is left of the end of a numerator when it is divided.
fn left_over(t: &[u8], k: usize, from: i64, to: i64, z: i64, e: u64) -> u64
    requires { (division_body ≤ length t.now) × (0 < e) × (e < 65536) × Step k from to × Within most_axes_part z }
{
    let numerator = bounds::end_at(t, k, from, to, z);
    numerator.rem_euclid(e as i64).unsigned_abs()
}

// The same turned round, for a numerator that falls.
fn turned(e: u64, m: u64) -> u64 {
    e.saturating_sub(m).saturating_sub(1)
}

// What is left of the end that moves: the greatest where the coefficient b of the axis is above 0.
fn remains(t: &[u8], k: usize, from: i64, to: i64, l: i64, h: i64, b: i64, e: u64) -> u64
    requires { (division_body ≤ length t.now) × (0 < e) × (e < 65536) × Step k from to × Within most_axes_part l × Within most_axes_part h }
{
    if 0 < b {
        left_over(t, k, to, from, h, e)
    } else {
        turned(e, left_over(t, k, from, to, l, e))
    }
}

// For how many values a constraint with body t that is `short` of holding goes on failing, where division j alone, at a
// place, brings it nearer.
fn division_guess(
    s: &[u8],
    t: &[u8],
    k: usize,
    from: i64,
    to: i64,
    r: &[i64; 129],
    short: u64,
    j: usize,
    at: usize,
    most: u64,
) -> u64
    requires { Loose s.now r.now × Step k from to × (constraint_body ≤ length t.now) × HelpedAt s.now j at × (0 < most) }
    ensures { (0 < result) × (result ≤ most) }
{
    let e = codec::head(s, at);
    if !(1..=65535).contains(&e) {
        return 1;
    }
    let u = codec::body(s, at);
    let b = codec::s16_at(u, codec::AXES_PLACE + 2 * k);
    let m = remains(u, k, from, to, r[j], r[64 + j], b, e);
    let c = codec::s16_at(t, codec::DIVISIONS_PLACE + 2 * j).unsigned_abs();
    stepped(short, c, e, m, b.unsigned_abs(), most)
}

// For how many values a constraint with body t that is `short` of holding goes on failing.
pub fn guess_from(
    s: &[u8],
    t: &[u8],
    k: usize,
    from: i64,
    to: i64,
    r: &[i64; 129],
    short: u64,
    up: bool,
    most: u64,
) -> u64
    requires { Loose s.now r.now × Step k from to × (constraint_body ≤ length t.now) × (0 < most) }
    ensures { (0 < result) × (result ≤ most) }
{
    let start = bounds::place(r);
    let a = rising(codec::s16_at(t, codec::AXES_PLACE + 2 * k), up);
    match helping_division(s, start, t, k, up) {
        Helper::Nothing => linear(short, a, most),
        Helper::One { number, place } if a == 0 => {
            division_guess(s, t, k, from, to, r, short, number, place, most)
        }
        Helper::One { .. } | Helper::Several => 1,
    }
}

// The guess for the constraint at a place, which fails.
pub fn guess(
    s: &[u8],
    k: usize,
    from: i64,
    to: i64,
    r: &[i64; 129],
    ql: &[i64],
    qh: &[i64],
    at: usize,
    i: usize,
    most: u64,
) -> u64
    requires { Loose s.now r.now × Ends ql.now qh.now most_quotient × Step k from to × Numbered s.now r.now at i × (0 < most) }
    ensures { (0 < result) × (result ≤ most) }
{
    let t = codec::body(s, at);
    let g = bounds::end_at(t, k, to, from, r[64 + i]);
    let high = bounds::extreme(t, codec::DIVISIONS_PLACE, qh, ql, g);
    if high < 0 {
        let short = high.unsigned_abs();
        return guess_from(s, t, k, from, to, r, short, true, most);
    }
    let f = bounds::end_at(t, k, from, to, r[i]);
    let low = bounds::extreme(t, codec::DIVISIONS_PLACE, ql, qh, f);
    let short = low.unsigned_abs();
    guess_from(s, t, k, from, to, r, short, false, most)
}
