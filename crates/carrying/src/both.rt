// The run at 64 bits, and at 128 where that is wide.
ghost use Rattle.std.specs.Prelude.{◌≡◌, ◌≤◌, length};
ghost use Rattle.simplex.specs.Table.{Fine};
ghost use Rattle.model.specs.Limits.{most_pivots};
ghost use Rattle.carrying.specs.Carried.{Went, RanBoth, is_wide};

use model::limit;
use simplex::{Counted, Verdict};

pub fn is_wide(v: Verdict) -> bool
    ensures { result ≡ is_wide v }
{
    matches!(v, Verdict::Wide)
}

// The tableau as it is, in a table of two-word numbers, with so many pivots left.
fn in_table(
    t: &[[i64; 18]],
    n: usize,
    place: &mut [usize],
    kinds: &[u8],
    from: usize,
    out: &mut [[u64; 36]],
) -> Counted
    requires { Fine n t.now place.old kinds.now × (from ≤ most_pivots) × (length out.old ≡ length t.now) }
    ensures { Went t.now place.old kinds.now from result }
{
    crate::carry::carry(t, out);
    crate::going::go_on(out, n, place, kinds, from)
}

fn widened(t: &[[i64; 18]], n: usize, place: &mut [usize], kinds: &[u8], from: usize) -> Counted
    requires { Fine n t.now place.old kinds.now × (from ≤ most_pivots) }
    ensures { Went t.now place.old kinds.now from result }
{
    let m = t.len();
    let mut out = [[0u64; 36]; 64];
    in_table(t, n, place, kinds, from, &mut out[..m])
}

pub fn run_both(t: &mut [[i64; 18]], n: usize, place: &mut [usize], kinds: &[u8]) -> Counted
    requires { Fine n t.old place.old kinds.now }
    ensures { RanBoth t.old place.old kinds.now result }
{
    let e = simplex::run::run(t, n, place, kinds);
    let first = e.ended;
    let v = first.verdict;
    let p = first.pivots;
    let before = e.built;
    if is_wide(v) {
        let w = widened(t, n, place, kinds, limit::PIVOTS - p);
        let ended = w.ended;
        let built = before + w.built;
        return Counted { ended, built };
    }
    e
}
