// A candidate by itself: made from the working constraints, and tested.
ghost use Rattle.std.specs.Prelude.{◌≡◌, ◌≤◌, ◌<◌, length};
ghost use Rattle.model.specs.Values.{constraint_of, basic_set_of};
ghost use Rattle.model.specs.Limits.{most_constraints};
ghost use Rattle.algebra.specs.Cut as C;
ghost use Rattle.records.specs.Sound.{Sound};
ghost use Rattle.simplex.specs.Answers.{verdict_of};
ghost use Rattle.candidates.specs.Candidates.{Tables, Putting, Roomy, candidate};

use carrying::test_basic;
use model::{BasicSet, Constraint};
use simplex::Verdict;

// Whether the answer keeps a candidate.
pub fn is_kept(v: Verdict) -> bool
    ensures { result ≡ C.is_kept (verdict_of v) }
{
    !matches!(v, Verdict::Dropped)
}

// Whether the test for fractions keeps a candidate.
pub fn keeps(b: BasicSet, rows: &mut [[i64; 18]], place: &mut [usize], kinds: &mut [u8]) -> bool
    requires { Sound b × Tables rows.old place.old kinds.old }
    ensures { result ≡ C.keeps (basic_set_of b) }
{
    is_kept(test_basic(b, rows, place, kinds).verdict)
}

// The first `at` constraints of w, then r.
pub fn put(w: BasicSet, at: usize, r: Constraint) -> BasicSet
    requires { (at ≤ w.cons) × (at < most_constraints) }
    ensures { Putting w at r result }
{
    let mut q = w;
    q.constraints[at] = r;
    q.cons = at + 1;
    q
}

// Whether the test keeps the candidate of w and o, worked out in a lent tableau.
pub fn anew(w: BasicSet, o: Constraint, spare: &mut [[i64; 18]]) -> bool
    requires { Roomy w × (length spare.old ≡ 64) }
    ensures { result ≡ C.keeps (candidate (basic_set_of w) (constraint_of o)) }
{
    let q = put(w, w.cons, o);
    let mut place = [0usize; 80];
    let mut kinds = [0u8; 80];
    is_kept(test_basic(q, spare, &mut place, &mut kinds).verdict)
}
