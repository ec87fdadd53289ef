// A table of 64-bit numbers as one of two-word numbers: the tableau as it is.
ghost use Rattle.std.specs.Prelude.{◌≡◌, ℕ, ◌<◌, [], length, get_or};
ghost use Rattle.wide_tableau.specs.Cells.{Turns};

pub fn carry(rows: &[[i64; 18]], out: &mut [[u64; 36]])
    requires { (length out.old ≡ length rows.now) × ((k : ℕ) → k < length rows.now → length (get_or rows.now k []) ≡ 18) }
    ensures { Turns out.new rows.now }
{
    for k in 0..rows.len() {
        wide_tableau::row::carry_row(&rows[k], &mut out[k]);
    }
}
