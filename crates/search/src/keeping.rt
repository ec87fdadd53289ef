// For how many values of an axis, from one that passes on, one basic set goes on holding.
ghost use Rattle.std.specs.Prelude.{◌≡◌, true, ◌≤◌, ◌<◌, length};
ghost use Rattle.model.specs.Limits.{most_coordinate};
ghost use Rattle.bounds.specs.Ends.{Ends};
ghost use Rattle.bounds.specs.Rows.{Row};
ghost use Rattle.runs.specs.Upward.{Reach, Keeping};
ghost use Rattle.search.specs.Live.{Rows, Rowed, Kept};
ghost use Rattle.search.specs.Levels.{passes_at, span_at, Ready, Lasting};

use crate::levels::{Prefix, span_of, value_at};
use model::limit;

// 1, or for how many values the basic set of row r, if it is live, holds.
fn row_keeps(
    s: &[u8],
    live: bool,
    k: usize,
    low: &[i64],
    high: &[i64],
    r: &mut [i64; 129],
    most: u64,
) -> u64
    requires { Row s.now (length low.now) r.old × Ends low.now high.now most_coordinate × (k < length low.now) × Reach k low.now most × (0 < most) }
    ensures { Keeping s.now k low.now high.now r.old r.new most result }
{
    if live {
        runs::keeping_run(s, k, low, high, r, most)
    } else {
        1
    }
}

// The same of the first row that has more than 1.
fn kept(
    s: &[u8],
    k: usize,
    low: &[i64],
    high: &[i64],
    live: [bool; limit::BASIC_SETS],
    rows: &mut [[i64; 129]],
    most: u64,
) -> u64
    requires { Rows s.now (length low.now) rows.old × Ends low.now high.now most_coordinate × (k < length low.now) × Reach k low.now most × (0 < most) }
    ensures is { Kept s.now k low.now high.now most result }
    ensures rows { Rows s.now (length low.now) rows.new }
{
    for (b, row) in rows.iter_mut().enumerate() {
        let m = row_keeps(s, live[b], k, low, high, row, most);
        if 1 < m {
            return m;
        }
    }
    1
}

// The same of the first `count` rows.
fn kept_in(
    s: &[u8],
    k: usize,
    low: &[i64],
    high: &[i64],
    live: [bool; limit::BASIC_SETS],
    count: usize,
    rows: &mut [[i64; 129]],
    most: u64,
) -> u64
    requires { Rowed s.now (length low.now) count rows.old × Ends low.now high.now most_coordinate × (k < length low.now) × Reach k low.now most × (0 < most) }
    ensures is { Kept s.now k low.now high.now most result }
    ensures rows { Rowed s.now (length low.now) count rows.new }
{
    kept(s, k, low, high, live, &mut rows[..count], most)
}

// How many values of axis k pass, from number i on, which passes, as far as the side and the limit go; `live` has the
// basic sets that are asked; 1 where none is to be asked.
pub fn lasting(
    s: &[u8],
    p: Prefix,
    live: [bool; limit::BASIC_SETS],
    ask: bool,
    i: u64,
    tested: u32,
    rows: &mut [[i64; 129]; limit::BASIC_SETS],
) -> u64
    requires { Ready s.now p tested × Rowed s.now p.n p.count rows.old × (i ≤ span_at p) × (tested < p.limit) × (passes_at s.now p i ≡ true) }
    ensures is { Lasting s.now p i tested result }
    ensures rows { Rowed s.now p.n p.count rows.new }
{
    if !ask {
        return 1;
    }
    let span = span_of(p.low, p.high, p.k);
    let most = (span - i + 1).min(u64::from(p.limit - tested));
    let v = value_at(p.low, p.k, i);
    let mut low = p.low;
    let mut high = p.high;
    low[p.k] = v;
    high[p.k] = v;
    kept_in(s, p.k, &low[..p.n], &high[..p.n], live, p.count, rows, most)
}
