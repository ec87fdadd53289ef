// The candidates of a cut: their tests share the pivots of the working constraints' test.
ghost use Rattle.std.specs.Prelude.{◌≡◌, false, length, IfSome};
ghost use Rattle.model.specs.Values.{constraint_of, basic_set_of};
ghost use Rattle.algebra.specs.Cut as C;
ghost use Rattle.simplex.specs.Answers.{verdict_of};
ghost use Rattle.carrying.specs.Carried.{is_wide};
ghost use Rattle.simplex.specs.Table.{Valid};
ghost use Rattle.sharing.specs.Working.{Beginning, Growing};
ghost use Rattle.candidates.specs.Candidates.{Roomy, Opposed, Keeping, KeptOf, Caught, Followed};

use crate::alone::{anew, is_kept};
use joining::{opposite_above, opposite_below, void};
use model::{BasicSet, Constraint};
use sharing::{Standing, begin, candidate, grow};
use simplex::Verdict;

// Which opposites of a constraint give a kept candidate.
#[derive(Clone, Copy)]
pub struct Survivors {
    pub above: bool,
    pub below: bool,
}

// Whether a shared test keeps a candidate; nothing where it is wide: the candidate is still to be tested alone.
fn judged(v: Verdict) -> Option<bool>
    ensures { IfSome result (λ kept. (kept ≡ C.is_kept (verdict_of v)) × (is_wide v ≡ false)) }
{
    if matches!(v, Verdict::Wide) {
        return None;
    }
    Some(is_kept(v))
}

// Nothing: a shared test was wide, and the candidates are still to be tested alone.
pub fn kept(
    h: Standing,
    k: usize,
    r: Constraint,
    rows: &[[i64; 18]],
    place: &[usize],
    kinds: &[u8],
    past: &[[i64; 18]],
    columns: &[usize],
    spare: &mut [[i64; 18]],
) -> Option<Survivors>
    requires growing { Growing k h rows.now place.now kinds.now past.now columns.now }
    requires opposed { Opposed r × (length spare.old ≡ 64) }
    ensures { KeptOf k r h rows.now place.now kinds.now past.now columns.now result }
{
    let undivided = void(r);
    let lower = opposite_below(r, undivided);
    let tested = candidate(h, lower, k, rows, place, kinds, past, columns, spare);
    let below = judged(tested)?;
    if !r.equality {
        return Some(Survivors {
            above: false,
            below,
        });
    }
    let upper = opposite_above(r, undivided);
    let tested = candidate(h, upper, k, rows, place, kinds, past, columns, spare);
    let above = judged(tested)?;
    Some(Survivors { above, below })
}

// The same by tests of the candidates alone.
pub fn kept_alone(w: BasicSet, r: Constraint, spare: &mut [[i64; 18]]) -> Survivors
    requires { Roomy w × Opposed r × (length spare.old ≡ 64) }
    ensures { Keeping (basic_set_of w) (constraint_of r) result }
{
    let undivided = void(r);
    let below = anew(w, opposite_below(r, undivided), spare);
    if !r.equality {
        return Survivors {
            above: false,
            below,
        };
    }
    let above = anew(w, opposite_above(r, undivided), spare);
    Survivors { above, below }
}

// The test of the working constraints.
pub fn start(
    w: BasicSet,
    rows: &mut [[i64; 18]],
    place: &mut [usize],
    kinds: &mut [u8],
    past: &mut [[i64; 18]],
    columns: &mut [usize],
) -> Standing
    requires valid { Valid w }
    requires beginning { Beginning rows.old place.old kinds.old past.old columns.old }
    ensures { Caught w result rows.new place.new kinds.new past.new columns.new }
{
    let mut x = begin(w, rows, place, kinds, past, columns);
    for c in &w.constraints[..w.cons] {
        x = grow(x, *c, w.divs, rows, place, kinds, past, columns);
    }
    x
}

// It goes on with the constraint r where r joined and the cutter has constraints left.
pub fn follow(
    h: Standing,
    r: Constraint,
    k: usize,
    joins: bool,
    left: usize,
    rows: &mut [[i64; 18]],
    place: &mut [usize],
    kinds: &mut [u8],
    past: &mut [[i64; 18]],
    columns: &mut [usize],
) -> Standing
    requires { Growing k h rows.old place.old kinds.old past.old columns.old }
    ensures { Followed k r joins left h rows.old place.old kinds.old past.old columns.old result rows.new place.new kinds.new past.new columns.new }
{
    if !joins || left == 0 {
        return h;
    }
    grow(h, r, k, rows, place, kinds, past, columns)
}
