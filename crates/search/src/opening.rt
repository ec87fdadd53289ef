// Which basic sets can still hold over a box, by their rows of ends; where none can, for how many values of an axis.
ghost use Rattle.std.specs.Prelude.{◌≡◌, false, ◌<◌, length};
ghost use Rattle.model.specs.Limits.{most_coordinate};
ghost use Rattle.codec.specs.Places.{basic_at};
ghost use Rattle.bounds.specs.Ends.{Ends};
ghost use Rattle.bounds.specs.Rows.{start_of, Row};
ghost use Rattle.runs.specs.Upward.{Reach, Told};
ghost use Rattle.enumeration.specs.Search.{box_of, can_hold};
ghost use Rattle.search.specs.Live.{Rows, Rowed, Tested, Sided, wide_box};

use model::limit;

// 0 where the basic set of row r can hold over the sides, otherwise for how many values of axis k, at most `most`, it
// cannot; `live`: whether it can over sides around them all.
fn row_run(
    s: &[u8],
    live: bool,
    k: usize,
    low: &[i64],
    high: &[i64],
    r: &mut [i64; 129],
    most: u64,
) -> u64
    requires { Row s.now (length low.now) r.old × Ends low.now high.now most_coordinate × (k < length low.now) × Reach k high.now most × (0 < most) × (live ≡ false → (can_hold (box_of low.now high.now) (basic_at s.now (start_of r.old)) ≡ false) × (can_hold (wide_box k low.now high.now most) (basic_at s.now (start_of r.old)) ≡ false)) }
    ensures { Told s.now k low.now high.now r.old r.new most result }
{
    if live {
        runs::failing_run(s, k, low, high, r, most)
    } else {
        most
    }
}

// Over a box: which basic sets can hold, if any can, and otherwise for how many values none can.
#[derive(Clone, Copy)]
pub enum Opening {
    Open([bool; limit::BASIC_SETS]),
    Shut(u64),
}

// `live` has those that can over a box around it and the next values of axis k, `most` in all.
fn opened(
    s: &[u8],
    k: usize,
    low: &[i64],
    high: &[i64],
    live: [bool; limit::BASIC_SETS],
    rows: &mut [[i64; 129]],
    most: u64,
) -> Opening
    requires { Rows s.now (length low.now) rows.old × Sided s.now k low.now high.now live most }
    ensures is { Tested s.now (box_of low.now high.now) (wide_box k low.now high.now) most result }
    ensures rows { Rows s.now (length low.now) rows.new }
{
    let mut kept = live;
    let mut any = false;
    let mut run = most;
    for (b, row) in rows.iter_mut().enumerate() {
        let m = row_run(s, live[b], k, low, high, row, run);
        kept[b] = m == 0;
        any |= m == 0;
        run = m.max(1);
    }
    if any {
        Opening::Open(kept)
    } else {
        Opening::Shut(run)
    }
}

// The same of the first `count` rows.
pub fn opened_in(
    s: &[u8],
    k: usize,
    low: &[i64],
    high: &[i64],
    live: [bool; limit::BASIC_SETS],
    count: usize,
    rows: &mut [[i64; 129]],
    most: u64,
) -> Opening
    requires { Rowed s.now (length low.now) count rows.old × Sided s.now k low.now high.now live most }
    ensures is { Tested s.now (box_of low.now high.now) (wide_box k low.now high.now) most result }
    ensures rows { Rowed s.now (length low.now) count rows.new }
{
    opened(s, k, low, high, live, &mut rows[..count], most)
}
