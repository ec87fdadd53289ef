// Steps 1 to 4.
ghost use Rattle.std.specs.Prelude.{◌≡◌, ◌<◌, length};
ghost use Rattle.tableau.specs.Rows.{violated as violated_of};
ghost use Rattle.simplex.specs.Table.{move_of, Fine};

use crate::{Move, Verdict};

// Steps 2 to 4, where v is the variable that step 1 finds: a caller that knows it need not search.
pub fn choose_at(
    t: &[[i64; 18]],
    n: usize,
    place: &[usize],
    kinds: &[u8],
    left: usize,
    v: usize,
) -> Move
    requires fine { Fine n t.now place.now kinds.now }
    requires v_value { v ≡ violated_of t.now place.now kinds.now }
    requires v_in_bounds { v < length place.now }
    ensures { result ≡ move_of t.now place.now kinds.now left }
{
    let count = place.len();
    let i = place[v];
    let w = tableau::helping(&t[i], place, kinds);
    if count <= w {
        return Move::Stop(Verdict::Dropped);
    }
    if left == 0 {
        return Move::Stop(Verdict::Long);
    }
    let j = place[w] - 64;
    if tableau::narrow(t, n, j) {
        Move::Pivot(v, w)
    } else {
        Move::Stop(Verdict::Wide)
    }
}

// What steps 1 to 4 say, with so many pivots left.
pub fn choose(t: &[[i64; 18]], n: usize, place: &[usize], kinds: &[u8], left: usize) -> Move
    requires { Fine n t.now place.now kinds.now }
    ensures { result ≡ move_of t.now place.now kinds.now left }
{
    let count = place.len();
    let v = tableau::violated(t, place, kinds);
    if count <= v {
        return Move::Stop(Verdict::Point);
    }
    choose_at(t, n, place, kinds, left, v)
}
