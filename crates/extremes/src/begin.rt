// The first table of a basic set in numbers of two words, and the expression's row beside it.
ghost use Rattle.std.specs.Prelude.{◌≡◌, ◌≤◌, length};
ghost use Rattle.model.specs.Values.{constraint_of};
ghost use Rattle.wide_tableau.specs.Cells.{Becomes};
ghost use Rattle.model.specs.Limits.{most_divisions};
ghost use Rattle.simplex.specs.Table.{start_row, Valid};
ghost use Rattle.climbing.specs.Steps.{Begun};

use model::{BasicSet, Constraint};

pub fn goal_row(c: Constraint, k: usize, goal: &mut [u64; 36])
    requires { k ≤ most_divisions }
    ensures { Becomes goal.new (start_row k (constraint_of c)) }
{
    let mut row = [0i64; 18];
    simplex::fill::constraint_row(&mut row, c, k);
    wide_tableau::row::carry_row(&row, goal);
}

pub fn conditions(b: BasicSet, t: &mut [[u64; 36]], place: &mut [usize], kinds: &mut [u8])
    requires { Valid b × (length t.old ≡ 64) × (length place.old ≡ 80) × (length kinds.old ≡ 80) }
    ensures { Begun b t.new place.new kinds.new }
{
    let k = b.divs;
    let cons = b.cons;
    let m = 2 * k + cons;
    let mut rows = [[0i64; 18]; 64];
    simplex::fill::fill(b, &mut rows, place, kinds);
    carrying::carry::carry(&rows[..m], &mut t[..m]);
}
