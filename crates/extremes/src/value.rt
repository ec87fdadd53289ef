// The extreme value of an expression over one basic set.
ghost use Rattle.std.specs.Prelude.{◌≡◌, pos, ◌<ℤ◌};
ghost use Rattle.integers.specs.Size.{bound};
ghost use Rattle.model.specs.Values.{basic_set_of, constraint_of};
ghost use Rattle.tableau.specs.Rows.{den};
ghost use Rattle.wide_tableau.specs.Cells.{cells, rows_of, Sheet, Sheets};
ghost use Rattle.simplex.specs.Table.{Valid};
ghost use Rattle.optimum.specs.Value.{extreme_of};
ghost use Rattle.climbing.specs.Steps.{aim_of, fraction_of, outcome_of, halves, Posed};
ghost use Rattle.extremes.specs.Answers.{fraction_is, extreme_is};

use crate::{Extent, Fraction};
use climbing::Outcome;
use model::{BasicSet, Constraint, limit};
use simplex::Verdict;

// The constant over the denominator of the expression's row, in lowest terms.
fn fraction(goal: &[u64; 36]) -> Fraction
    requires { Sheet goal.now × (pos 0 <ℤ den (cells goal.now)) }
    ensures { fraction_is result ≡ fraction_of (cells goal.now) }
{
    let c = wide_tableau::row::cell_at(goal, 1);
    let d = wide_tableau::row::cell_at(goal, 0);
    let a = c.magnitude;
    let b = d.magnitude;
    let g = wide::gcd(a, b);
    let numerator = wide::quotient(c, g);
    let q = wide::quotient(d, g);
    let denominator = q.magnitude;
    Fraction {
        numerator: numerator,
        denominator: denominator,
    }
}

fn ended(x: Outcome, goal: &[u64; 36]) -> Extent
    requires { Sheet goal.now × (pos 0 <ℤ den (cells goal.now)) }
    ensures { extreme_is result ≡ outcome_of x (cells goal.now) }
{
    match x {
        Outcome::Best => Extent::Value(fraction(goal)),
        Outcome::Endless => Extent::Unbounded,
        Outcome::Long => Extent::TooLong,
        Outcome::Wide => Extent::TooWide,
    }
}

// Both halves, in a table that is filled.
fn both_halves(
    t: &mut [[u64; 36]],
    goal: &mut [u64; 36],
    n: usize,
    place: &mut [usize],
    kinds: &[u8],
    greatest: bool,
) -> Extent
    requires { Sheets t.old × Sheet goal.old × Posed n (rows_of t.old) (cells goal.old) place.old kinds.now }
    ensures { extreme_is result ≡ halves (bound 128) kinds.now greatest (rows_of t.old) (cells goal.old) place.old }
{
    let e = climbing::point::reach(t, goal, n, place, kinds);
    let verdict = e.verdict;
    let pivots = e.pivots;
    match verdict {
        Verdict::Point => {
            let x = climbing::climb::climb(
                t,
                goal,
                n,
                place,
                kinds,
                greatest,
                limit::PIVOTS - pivots,
            );
            ended(x, goal)
        }
        Verdict::Dropped => Extent::Empty,
        Verdict::Long => Extent::TooLong,
        Verdict::Wide => Extent::TooWide,
    }
}

pub fn of_basic(b: BasicSet, c: Constraint, greatest: bool) -> Extent
    requires { Valid b }
    ensures { extreme_is result ≡ extreme_of (aim_of greatest) (basic_set_of b) (constraint_of c) }
{
    let k = b.divs;
    let cons = b.cons;
    let m = 2 * k + cons;
    let names = limit::AXES + k + m;
    let mut t = [[0u64; 36]; 64];
    let mut goal = [0u64; 36];
    let mut place = [0usize; 80];
    let mut kinds = [0u8; 80];
    crate::begin::conditions(b, &mut t, &mut place, &mut kinds);
    crate::begin::goal_row(c, k, &mut goal);
    both_halves(
        &mut t[..m],
        &mut goal,
        k + 10,
        &mut place[..names],
        &kinds[..names],
        greatest,
    )
}
