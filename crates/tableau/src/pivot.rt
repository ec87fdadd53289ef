// The exchange of a row and a column: only the exchanged row and the rows with an entry in the column are built, each once.
ghost use Rattle.std.specs.Prelude.{◌≡◌, ℕ, ◌+◌, ◌<◌, ◌≤◌, length, get_or, set, map, []};
ghost use Rattle.tableau.specs.Rows.{rebuild_row, exchange_rows, rebuilt, touched, Fit, Divisor, Ready};

// The row with the variable of column j replaced, where it has an entry there: 1, else 0.
fn rebuild(r: &mut [i64; 18], n: usize, j: usize, m: i64, q: &[i64; 18]) -> usize
    requires j_bound { j < 16 }
    requires fit { Fit n r.old j }
    requires divisor { Divisor n m q.now }
    ensures { (r.new ≡ rebuild_row j m q.now r.old) × (result ≡ rebuilt j r.old) }
{
    if r[j + 2] == 0 {
        return 0;
    }
    crate::row::replace(r, n, j, m, q);
    1
}

// The rows but row i rebuilt; how many of them have an entry in column j.
fn sweep(t: &mut [[i64; 18]], n: usize, i: usize, j: usize, m: i64, q: &[i64; 18]) -> usize
    requires { (j < 16) × (length t.old ≤ 64) × ((k : ℕ) → k < length t.old → (k ≡ i → ⊥) → Fit n (get_or t.old k []) j) × Divisor n m q.now }
    ensures { (t.new ≡ set (map (rebuild_row j m q.now) t.old) i (get_or t.old i [])) × (result ≡ touched j (set t.old i [])) }
{
    let mut built = 0;
    for (k, r) in t.iter_mut().enumerate() {
        if k != i {
            built += rebuild(r, n, j, m, q);
        }
    }
    built
}

// The exchange of row i and column j; the number of rows built. Row i is built where it stands; the one copy of it goes into the others.
pub fn exchange(t: &mut [[i64; 18]], n: usize, i: usize, j: usize) -> usize
    requires { Ready n t.old i j }
    ensures { (t.new ≡ exchange_rows t.old i j) × (result ≡ touched j t.old) }
{
    crate::row::solve(&mut t[i], n, j);
    let mut p = t[i];
    let m = p[0];
    p[0] = 0;
    sweep(t, n, i, j, m, &p) + 1
}
