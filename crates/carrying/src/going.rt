// Step 5 at 128 bits, and the steps until one of them answers.
ghost use Rattle.std.specs.Prelude.{◌≡◌, ◌≤◌};
ghost use Rattle.integers.specs.Size.{bound};
ghost use Rattle.wide_tableau.specs.Cells.{rows_of, Sheets, Turns};
ghost use Rattle.model.specs.Limits.{most_pivots};
ghost use Rattle.simplex.specs.Table.{pivot_rows, pivot_place, pivot_built, Fine, CrossingAt};
ghost use Rattle.carrying.specs.Carried.{WentTo};

use model::limit;
use simplex::{Counted, Ended, Move};

// Step 5: the row of variable v and the column of variable w; the number of rows built.
pub fn pivot(t: &mut [[u64; 36]], n: usize, place: &mut [usize], v: usize, w: usize) -> usize
    requires { Sheets t.old × CrossingAt (bound 128) n (rows_of t.old) place.old v w }
    ensures { Turns t.new (pivot_rows (rows_of t.old) place.old v w) × (place.new ≡ pivot_place place.old v w) × (result ≡ pivot_built (rows_of t.old) place.old w) }
{
    let i = place[v];
    let c = place[w];
    let k = wide_tableau::exchange(t, n, i, c - 64);
    place[v] = c;
    place[w] = i;
    k
}

// The steps, with so many pivots left of the 200: the table and the places are left as they end.
pub fn go_on(
    t: &mut [[u64; 36]],
    n: usize,
    place: &mut [usize],
    kinds: &[u8],
    from: usize,
) -> Counted
    requires { Sheets t.old × Fine n (rows_of t.old) place.old kinds.now × (from ≤ most_pivots) }
    ensures { WentTo (rows_of t.old) place.old kinds.now from result t.new place.new }
{
    let mut left = from;
    let mut built: usize = 0;
    loop {
        let m = crate::choose::choose(t, n, place, kinds, left);
        match m {
            Move::Stop(x) => {
                let ended = Ended {
                    verdict: x,
                    pivots: limit::PIVOTS - left,
                };
                return Counted { ended, built };
            }
            Move::Pivot(v, w) => {
                built += pivot(t, n, place, v, w);
                left -= 1;
            }
        }
    }
}
