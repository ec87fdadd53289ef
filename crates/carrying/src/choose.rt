// Steps 1 to 4 at 128 bits.
ghost use Rattle.std.specs.Prelude.{◌≡◌, ◌<◌, length};
ghost use Rattle.integers.specs.Size.{bound};
ghost use Rattle.tableau.specs.Rows.{violated as violated_of};
ghost use Rattle.wide_tableau.specs.Cells.{rows_of, Sheets};
ghost use Rattle.simplex.specs.Table.{move_at, Fine};

use simplex::{Move, Verdict};

// Steps 2 to 4, where v is the variable that step 1 finds.
pub fn choose_at(
    t: &[[u64; 36]],
    n: usize,
    place: &[usize],
    kinds: &[u8],
    left: usize,
    v: usize,
) -> Move
    requires { Sheets t.now × Fine n (rows_of t.now) place.now kinds.now × (v ≡ violated_of (rows_of t.now) place.now kinds.now) × (v < length place.now) }
    ensures { result ≡ move_at (bound 128) (rows_of t.now) place.now kinds.now left }
{
    let count = place.len();
    let i = place[v];
    let w = wide_tableau::helping(&t[i], place, kinds);
    if count <= w {
        return Move::Stop(Verdict::Dropped);
    }
    if left == 0 {
        return Move::Stop(Verdict::Long);
    }
    let j = place[w] - 64;
    if wide_tableau::narrow(t, n, j) {
        Move::Pivot(v, w)
    } else {
        Move::Stop(Verdict::Wide)
    }
}

// What steps 1 to 4 say, with so many pivots left.
pub fn choose(t: &[[u64; 36]], n: usize, place: &[usize], kinds: &[u8], left: usize) -> Move
    requires { Sheets t.now × Fine n (rows_of t.now) place.now kinds.now }
    ensures { result ≡ move_at (bound 128) (rows_of t.now) place.now kinds.now left }
{
    let count = place.len();
    let v = wide_tableau::violated(t, place, kinds);
    if count <= v {
        return Move::Stop(Verdict::Point);
    }
    choose_at(t, n, place, kinds, left, v)
}
