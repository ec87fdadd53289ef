// Rows of ends: at places 0 to 55 the least values of the axes' part of each division and constraint of a basic set over a box, at 64 to 119 the greatest; at
// 56 to 63 the lows of the box, at 120 to 127 its highs; at 128 the place of the basic set.
ghost use Rattle.std.specs.Prelude.{◌≡◌, true, List, ℕ, ◌+◌, ◌≤◌, ◌<◌, ◌^◌, pos, ◌-ℤ◌, length, get_or};
ghost use Rattle.integers.specs.Z.{Within};
ghost use Rattle.model.specs.Limits.{most_axes, most_coordinate};
ghost use Rattle.codec.specs.Places.{Opened};
ghost use Rattle.bounds.specs.Sizes.{most_move};
ghost use Rattle.bounds.specs.Ends.{AllWithin, Ends, Step};
ghost use Rattle.bounds.specs.Rows.{start_of, row_forms, Loose, Row, Shifted, Followed, Settled};

use crate::ends::moved;

// The row of the basic set whose commands start at a place, over the box with all sides at 0.
pub fn fresh(start: usize) -> [i64; 129]
    requires { start < 2 ^ 63 }
    ensures place { start_of result ≡ start }
    ensures row { (s : List ℕ) (n : ℕ) → n ≤ most_axes → Opened s start → Row s n result }
{
    let mut r = [0i64; 129];
    r[128] = start as i64;
    r
}

pub fn place(r: &[i64; 129]) -> usize
    requires { get_or r.now 128 (pos 0) ≡ pos (start_of r.now) }
    ensures { result ≡ start_of r.now }
{
    r[128] as usize
}

// How far an end of axis k has to move, from that at place p + k of the row.
pub fn gap(x: &[i64], k: usize, r: &[i64; 129], p: usize) -> i64
    requires { (k < length x.now) × AllWithin most_coordinate x.now × (p + k < 129) × (length r.now ≡ 129) × Within most_coordinate (get_or r.now (p + k) (pos 0)) }
    ensures is { result ≡ get_or x.now k (pos 0) -ℤ get_or r.now (p + k) (pos 0) }
    ensures size { Within most_move result }
{
    x[k] - r[p + k]
}

// Each end once the ends of axis j have moved.
fn shift(s: &[u8], j: usize, from: i64, to: i64, r: &mut [i64; 129])
    requires { Loose s.now r.old × Step j from to }
    ensures { Shifted (row_forms s.now r.old) j from to 56 r.old r.new }
{
    let mut at = place(r);
    let mut i = 0;
    while codec::goes_on(s, at) {
        let t = codec::body(s, at);
        let l = r[i];
        let h = r[64 + i];
        r[i] = moved(t, j, from, to, l);
        r[64 + i] = moved(t, j, to, from, h);
        at = codec::next(s, at);
        i += 1;
    }
}

// The side of axis j follows the box, unless j is k.
fn follow(s: &[u8], j: usize, k: usize, low: &[i64], high: &[i64], r: &mut [i64; 129])
    requires { Row s.now (length low.now) r.old × Ends low.now high.now most_coordinate × (j < length low.now) }
    ensures { Followed s.now j k low.now high.now r.old r.new }
{
    if j == k {
        return;
    }
    let from = gap(low, j, r, 56);
    let to = gap(high, j, r, 120);
    if from == 0 && to == 0 {
        return;
    }
    shift(s, j, from, to, r);
    r[56 + j] = low[j];
    r[120 + j] = high[j];
}

// Every side but that of axis k follows the box.
pub fn settle(s: &[u8], k: usize, low: &[i64], high: &[i64], r: &mut [i64; 129])
    requires { Row s.now (length low.now) r.old × Ends low.now high.now most_coordinate × (k < length low.now) }
    ensures is { Settled s.now k low.now high.now r.new }
    ensures place { start_of r.new ≡ start_of r.old }
{
    for j in 0..low.len() {
        follow(s, j, k, low, high, r);
    }
}
