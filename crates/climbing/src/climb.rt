// The second half: the point moves as long as the value improves.
ghost use Rattle.std.specs.Prelude.{◌≡◌, ◌&&◌, [], ℕ, ◌≤◌, ◌<◌, length, get_or};
ghost use Rattle.integers.specs.Size.{bound};
ghost use Rattle.wide.specs.Wide.{value_of};
ghost use Rattle.tableau.specs.Rows.{entry, narrow_rows_at, narrow_row_at, Line};
ghost use Rattle.wide_tableau.specs.Cells.{cells, rows_of, Sheet, Sheets};
ghost use Rattle.climbing.specs.Steps.{aim_of, improving as improving_of, moves_up, step_in, step_at, Posed, Climbs};

use crate::stops::{leaving, stopping};
use crate::{Outcome, Step};
use wide::Wide;

// −1 for the greatest value, 1 for the least.
fn aim(greatest: bool) -> Wide
    ensures { value_of result ≡ aim_of greatest }
{
    if greatest {
        wide::widen(-1)
    } else {
        wide::widen(1)
    }
}

// The lowest-numbered column that improves the value, as one that helps a row of this constant; the number of variables where none does.
fn improving(goal: &[u64; 36], place: &[usize], kinds: &[u8], greatest: bool) -> usize
    requires { Sheet goal.now × (length kinds.now ≡ length place.now) × ((v : ℕ) → v < length place.now → get_or place.now v 0 < 80) }
    ensures { result ≡ improving_of (cells goal.now) place.now kinds.now greatest }
{
    let mut row = *goal;
    let z = aim(greatest);
    wide_tableau::row::set_cell(&mut row, 1, z);
    wide_tableau::helping(&row, place, kinds)
}

// Whether the variable of column j, which improves the value, is moved up.
fn moves_up(goal: &[u64; 36], j: usize, greatest: bool) -> bool
    requires { Sheet goal.now × (j < 16) }
    ensures { result ≡ moves_up greatest (entry (cells goal.now) j) }
{
    let a = wide_tableau::row::cell_at(goal, j + 2);
    if greatest {
        let b = wide::negate(a);
        return wide::is_negative(b);
    }
    wide::is_negative(a)
}

// Step 4.
fn fits(t: &[[u64; 36]], goal: &[u64; 36], n: usize, j: usize) -> bool
    requires { Sheets t.now × Sheet goal.now × (j < 16) × ((k : ℕ) → k < length t.now → Line n (cells (get_or t.now k []))) × Line n (cells goal.now) }
    ensures { result ≡ (narrow_rows_at (bound 128) j (rows_of t.now) && narrow_row_at (bound 128) j (cells goal.now)) }
{
    if wide_tableau::narrow(t, n, j) {
        return wide_tableau::search::row_narrow(goal, n, j);
    }
    false
}

// What a step says, with so many pivots left, where w is the column that improves the value.
fn step_in(
    t: &[[u64; 36]],
    goal: &[u64; 36],
    n: usize,
    place: &[usize],
    kinds: &[u8],
    greatest: bool,
    left: usize,
    w: usize,
) -> Step
    requires { Sheets t.now × Sheet goal.now × Posed n (rows_of t.now) (cells goal.now) place.now kinds.now × (w < length place.now) × (64 ≤ get_or place.now w 0) }
    ensures { result ≡ step_in (bound 128) (rows_of t.now) (cells goal.now) place.now kinds.now greatest left w }
{
    let j = place[w] - 64;
    let up = moves_up(goal, j, greatest);
    let first = stopping(t, place, kinds, j, up);
    if place.len() <= first {
        return Step::Ends(Outcome::Endless);
    }
    if left == 0 {
        return Step::Ends(Outcome::Long);
    }
    if !fits(t, goal, n, j) {
        return Step::Ends(Outcome::Wide);
    }
    let v = leaving(t, place, kinds, j, up, first);
    Step::Turns(v, w)
}

// What a step says, with so many pivots left.
fn step(
    t: &[[u64; 36]],
    goal: &[u64; 36],
    n: usize,
    place: &[usize],
    kinds: &[u8],
    greatest: bool,
    left: usize,
) -> Step
    requires { Sheets t.now × Sheet goal.now × Posed n (rows_of t.now) (cells goal.now) place.now kinds.now }
    ensures { result ≡ step_at (bound 128) (rows_of t.now) (cells goal.now) place.now kinds.now greatest left }
{
    let w = improving(goal, place, kinds, greatest);
    if place.len() <= w {
        return Step::Ends(Outcome::Best);
    }
    step_in(t, goal, n, place, kinds, greatest, left, w)
}

// The steps, with so many pivots left of the 200: the expression's row is left as the second half ends.
pub fn climb(
    t: &mut [[u64; 36]],
    goal: &mut [u64; 36],
    n: usize,
    place: &mut [usize],
    kinds: &[u8],
    greatest: bool,
    from: usize,
) -> Outcome
    requires { Sheets t.old × Sheet goal.old × Posed n (rows_of t.old) (cells goal.old) place.old kinds.now }
    ensures { Climbs (rows_of t.old) (cells goal.old) place.old kinds.now greatest from result goal.new }
{
    let mut left = from;
    loop {
        let s = step(t, goal, n, place, kinds, greatest, left);
        match s {
            Step::Ends(x) => {
                return x;
            }
            Step::Turns(v, w) => {
                crate::cross::cross(t, goal, n, place, v, w);
                left -= 1;
            }
        }
    }
}
