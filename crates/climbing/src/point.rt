// The first half: the test for fractions, with the expression's row under step 4 too.
ghost use Rattle.std.specs.Prelude.{◌≡◌};
ghost use Rattle.integers.specs.Size.{bound};
ghost use Rattle.wide_tableau.specs.Cells.{cells, rows_of, Sheet, Sheets};
ghost use Rattle.climbing.specs.Steps.{move_with, Posed, Reaches};

use model::limit;
use simplex::{Ended, Move, Verdict};

// What steps 1 to 4 say, with so many pivots left.
fn choose(
    t: &[[u64; 36]],
    goal: &[u64; 36],
    n: usize,
    place: &[usize],
    kinds: &[u8],
    left: usize,
) -> Move
    requires { Sheets t.now × Sheet goal.now × Posed n (rows_of t.now) (cells goal.now) place.now kinds.now }
    ensures { result ≡ move_with (bound 128) (rows_of t.now) (cells goal.now) place.now kinds.now left }
{
    let m = carrying::choose::choose(t, n, place, kinds, left);
    match m {
        Move::Stop(x) => Move::Stop(x),
        Move::Pivot(v, w) => {
            let j = place[w] - 64;
            if wide_tableau::search::row_narrow(goal, n, j) {
                Move::Pivot(v, w)
            } else {
                Move::Stop(Verdict::Wide)
            }
        }
    }
}

// The steps, with 200 pivots: the table, the expression's row and the places are left as the first half ends.
pub fn reach(
    t: &mut [[u64; 36]],
    goal: &mut [u64; 36],
    n: usize,
    place: &mut [usize],
    kinds: &[u8],
) -> Ended
    requires { Sheets t.old × Sheet goal.old × Posed n (rows_of t.old) (cells goal.old) place.old kinds.now }
    ensures { Reaches n (rows_of t.old) (cells goal.old) place.old kinds.now result t.new goal.new place.new }
{
    let mut left: usize = limit::PIVOTS;
    loop {
        let m = choose(t, goal, n, place, kinds, left);
        match m {
            Move::Stop(x) => {
                return Ended {
                    verdict: x,
                    pivots: limit::PIVOTS - left,
                };
            }
            Move::Pivot(v, w) => {
                crate::cross::cross(t, goal, n, place, v, w);
                left -= 1;
            }
        }
    }
}
