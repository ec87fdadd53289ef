// Step 5, and the steps until one of them answers.
ghost use Rattle.std.specs.Prelude.{◌≡◌};
ghost use Rattle.simplex.specs.Table.{pivot_rows, pivot_place, pivot_built, Fine, Crossing, Ran};

use crate::{Counted, Ended, Move};
use model::limit;

// Step 5: the row of variable v and the column of variable w; the number of rows built.
pub fn pivot_counted(
    t: &mut [[i64; 18]],
    n: usize,
    place: &mut [usize],
    v: usize,
    w: usize,
) -> usize
    requires { Crossing n t.old place.old v w }
    ensures { (t.new ≡ pivot_rows t.old place.old v w) × (place.new ≡ pivot_place place.old v w) × (result ≡ pivot_built t.old place.old w) }
{
    let i = place[v];
    let c = place[w];
    let k = tableau::exchange(t, n, i, c - 64);
    place[v] = c;
    place[w] = i;
    k
}

// Step 5, where nobody counts.
pub fn pivot(t: &mut [[i64; 18]], n: usize, place: &mut [usize], v: usize, w: usize)
    requires { Crossing n t.old place.old v w }
    ensures { (t.new ≡ pivot_rows t.old place.old v w) × (place.new ≡ pivot_place place.old v w) }
{
    pivot_counted(t, n, place, v, w);
}

// The steps, with at most 200 pivots.
pub fn run(t: &mut [[i64; 18]], n: usize, place: &mut [usize], kinds: &[u8]) -> Counted
    requires { Fine n t.old place.old kinds.now }
    ensures { Ran t.old place.old kinds.now result t.new place.new }
{
    let mut left: usize = limit::PIVOTS;
    let mut built: usize = 0;
    loop {
        let m = crate::choose::choose(t, n, place, kinds, left);
        match m {
            Move::Stop(x) => {
                let ended = Ended {
                    verdict: x,
                    pivots: limit::PIVOTS - left,
                };
                return Counted { ended, built };
            }
            Move::Pivot(v, w) => {
                built += pivot_counted(t, n, place, v, w);
                left -= 1;
            }
        }
    }
}
