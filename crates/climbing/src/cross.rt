// Step 5 with the expression's row beside the table.
ghost use Rattle.std.specs.Prelude.{◌≡◌, ◌-◌, get_or};
ghost use Rattle.integers.specs.Size.{bound};
ghost use Rattle.tableau.specs.Rows.{narrow_row_at, FitAt, Line};
ghost use Rattle.wide_tableau.specs.Cells.{cells, rows_of, Sheet, Sheets, Becomes, Turns};
ghost use Rattle.simplex.specs.Table.{pivot_rows, pivot_place, CrossingAt};
ghost use Rattle.climbing.specs.Steps.{pivot_goal};

// The row of variable v and the column of variable w change places, and that row goes into the expression's too.
pub fn cross(
    t: &mut [[u64; 36]],
    goal: &mut [u64; 36],
    n: usize,
    place: &mut [usize],
    v: usize,
    w: usize,
)
    requires { Sheets t.old × Sheet goal.old × CrossingAt (bound 128) n (rows_of t.old) place.old v w × FitAt (bound 128) n (cells goal.old) (get_or place.old w 0 - 64) }
    ensures { Turns t.new (pivot_rows (rows_of t.old) place.old v w) × Becomes goal.new (pivot_goal (rows_of t.old) (cells goal.old) place.old v w) × (place.new ≡ pivot_place place.old v w) }
{
    let i = place[v];
    let c = place[w];
    carrying::going::pivot(t, n, place, v, w);
    let mut p = t[i];
    let m = wide_tableau::row::cell_at(&p, 0);
    wide_tableau::row::wipe(&mut p);
    wide_tableau::pivot::rebuild(goal, n, c - 64, m, &p);
}
