// The exchange of a row and a column: only the exchanged row and the rows with an entry in the column are built, each once.
ghost use Rattle.std.specs.Prelude.{◌≡◌, ℕ, ◌+◌, ◌<◌, ◌≤◌, length, get_or, set, map, []};
ghost use Rattle.integers.specs.Size.{bound};
ghost use Rattle.wide.specs.Wide.{value_of};
ghost use Rattle.tableau.specs.Rows.{rebuild_row, exchange_rows, rebuilt, touched, FitAt, DivisorAt, ReadyAt};
ghost use Rattle.wide_tableau.specs.Cells.{cells, rows_of, Sheet, Sheets, Becomes, Turns};

use wide::Wide;

// The row with the variable of column j replaced, where it has an entry there: 1, else 0.
pub fn rebuild(r: &mut [u64; 36], n: usize, j: usize, m: Wide, q: &[u64; 36]) -> usize
    requires { Sheet r.old × Sheet q.now × (j < 16) × FitAt (bound 128) n (cells r.old) j × DivisorAt (bound 128) n (value_of m) (cells q.now) }
    ensures { Becomes r.new (rebuild_row j (value_of m) (cells q.now) (cells r.old)) × (result ≡ rebuilt j (cells r.old)) }
{
    if wide::is_zero(crate::row::cell_at(r, j + 2).magnitude) {
        return 0;
    }
    crate::row::replace(r, n, j, m, q);
    1
}

// The rows but row i rebuilt; how many of them have an entry in column j.
fn sweep(t: &mut [[u64; 36]], n: usize, i: usize, j: usize, m: Wide, q: &[u64; 36]) -> usize
    requires { Sheets t.old × Sheet q.now × (j < 16) × (length t.old ≤ 64) × ((k : ℕ) → k < length t.old → (k ≡ i → ⊥) → FitAt (bound 128) n (cells (get_or t.old k [])) j) × DivisorAt (bound 128) n (value_of m) (cells q.now) }
    ensures { Turns t.new (set (map (rebuild_row j (value_of m) (cells q.now)) (rows_of t.old)) i (get_or (rows_of t.old) i [])) × (result ≡ touched j (set (rows_of t.old) i [])) }
{
    let mut built = 0;
    for (k, r) in t.iter_mut().enumerate() {
        if k != i {
            built += rebuild(r, n, j, m, q);
        }
    }
    built
}

// The exchange of row i and column j; the number of rows built. Row i is built where it stands; the one copy of it goes into the others.
pub fn exchange(t: &mut [[u64; 36]], n: usize, i: usize, j: usize) -> usize
    requires { Sheets t.old × ReadyAt (bound 128) n (rows_of t.old) i j }
    ensures { Turns t.new (exchange_rows (rows_of t.old) i j) × (result ≡ touched j (rows_of t.old)) }
{
    crate::row::solve(&mut t[i], n, j);
    let mut p = t[i];
    let m = crate::row::cell_at(&p, 0);
    crate::row::wipe(&mut p);
    sweep(t, n, i, j, m, &p) + 1
}
