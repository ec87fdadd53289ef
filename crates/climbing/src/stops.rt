// The rows that stop a move of the variable of column j, up or down.
ghost use Rattle.std.specs.Prelude.{◌≡◌, true, ℕ, ◌<◌, length, get_or};
ghost use Rattle.wide.specs.Wide.{value_of};
ghost use Rattle.wide_tableau.specs.Cells.{rows_of, Sheets};
ghost use Rattle.climbing.specs.Steps.{moved, stops_at, stopping as stopping_of, move_over, move_under, sooner_at, leaving as leaving_of, Placed, Stopped};

use wide::Wide;

// The change of a row with entry e for one unit of the move.
fn change(up: bool, e: Wide) -> Wide
    ensures { value_of result ≡ moved up (value_of e) }
{
    if up { e } else { wide::negate(e) }
}

// Whether variable v is a row that stops the move.
fn stops(t: &[[u64; 36]], place: &[usize], kinds: &[u8], j: usize, up: bool, v: usize) -> bool
    requires { Sheets t.now × Placed (rows_of t.now) place.now kinds.now × (j < 16) × (v < length place.now) }
    ensures { result ≡ stops_at (rows_of t.now) place.now kinds.now j up v }
{
    let i = place[v];
    let kind = kinds[v];
    if i < 64 {
        let e = wide_tableau::row::cell_at(&t[i], j + 2);
        let x = change(up, e);
        return wide_tableau::search::is_violated(kind, x);
    }
    false
}

// The lowest-numbered row that stops the move; the number of variables where none does.
pub fn stopping(t: &[[u64; 36]], place: &[usize], kinds: &[u8], j: usize, up: bool) -> usize
    requires { Sheets t.now × Placed (rows_of t.now) place.now kinds.now × (j < 16) }
    ensures { result ≡ stopping_of (rows_of t.now) place.now kinds.now j up }
{
    let mut v: usize = 0;
    while v < place.len() {
        if stops(t, place, kinds, j, up, v) {
            return v;
        }
        v += 1;
    }
    v
}

// After how long a move row v stops it, as a number over `under`: an equality's row at once.
fn over(t: &[[u64; 36]], place: &[usize], kinds: &[u8], v: usize) -> Wide
    requires { Sheets t.now × Placed (rows_of t.now) place.now kinds.now × (v < length place.now) × (get_or place.now v 0 < 64) }
    ensures { value_of result ≡ move_over (rows_of t.now) place.now kinds.now v }
{
    let i = place[v];
    let kind = kinds[v];
    if kind == 2 {
        return wide::widen(0);
    }
    wide_tableau::row::cell_at(&t[i], 1)
}

fn under(t: &[[u64; 36]], place: &[usize], j: usize, v: usize) -> Wide
    requires { Sheets t.now × (v < length place.now) × (get_or place.now v 0 < length t.now) × (j < 16) }
    ensures { value_of result ≡ move_under (rows_of t.now) place.now j v }
{
    let i = place[v];
    let e = wide_tableau::row::cell_at(&t[i], j + 2);
    let m = e.magnitude;
    Wide {
        neg: false,
        magnitude: m,
    }
}

// Whether row v stops the move sooner than row u.
fn sooner(t: &[[u64; 36]], place: &[usize], kinds: &[u8], j: usize, v: usize, u: usize) -> bool
    requires { Sheets t.now × Placed (rows_of t.now) place.now kinds.now × (j < 16) × Stopped (rows_of t.now) place.now v × Stopped (rows_of t.now) place.now u }
    ensures { result ≡ sooner_at (rows_of t.now) place.now kinds.now j v u }
{
    let a = over(t, place, kinds, v);
    let b = under(t, place, j, u);
    let c = over(t, place, kinds, u);
    let d = under(t, place, j, v);
    let x = wide::determinant(a, b, c, d);
    wide::is_negative(x)
}

// Of the rows that stop the move soonest the lowest-numbered, where `first` is the lowest-numbered that stops it.
pub fn leaving(
    t: &[[u64; 36]],
    place: &[usize],
    kinds: &[u8],
    j: usize,
    up: bool,
    first: usize,
) -> usize
    requires { Sheets t.now × Placed (rows_of t.now) place.now kinds.now × (j < 16) × (first < length place.now) × (first ≡ stopping_of (rows_of t.now) place.now kinds.now j up) × ((v : ℕ) → v < length place.now → stops_at (rows_of t.now) place.now kinds.now j up v ≡ true → Stopped (rows_of t.now) place.now v) }
    ensures { result ≡ leaving_of (rows_of t.now) place.now kinds.now j up first }
{
    let mut best = first;
    let mut v = first + 1;
    while v < place.len() {
        if stops(t, place, kinds, j, up, v) {
            if sooner(t, place, kinds, j, v, best) {
                best = v;
            }
        }
        v += 1;
    }
    best
}
