// A box of a walk: what is asked of it before, and where the walk begins.
ghost use Rattle.std.specs.Prelude.{◌≡◌, length};
ghost use Rattle.model.specs.Limits.{most_basic_sets};
ghost use Rattle.codec.specs.Places.{Accepted};
ghost use Rattle.enumeration.specs.Search.{box_of, corners_fit, limit_fits};
ghost use Rattle.enumeration.specs.Search as S;
ghost use Rattle.search.specs.Sides.{Boxed};
ghost use Rattle.search.specs.Live.{Laid};
ghost use Rattle.search.specs.Levels.{Begun};

use crate::levels::Prefix;
use model::limit;

// Whether no low is over its high.
pub fn upright(low: [i32; limit::AXES], high: [i32; limit::AXES]) -> bool
    ensures { result ≡ S.upright (box_of low high) }
{
    low.iter().zip(&high).all(|(low, high)| low <= high)
}

pub fn corners_fit(n: usize, low: [i32; limit::AXES], high: [i32; limit::AXES]) -> bool
    ensures { result ≡ corners_fit n low high }
{
    query::point_fits(n, low) && query::point_fits(n, high)
}

pub fn limit_fits(limit: u32) -> bool
    ensures { result ≡ limit_fits limit }
{
    0 < limit && limit <= limit::PREFIXES
}

// The rows of the basic sets, and how many they are.
fn laid(s: &[u8], rows: &mut [[i64; 129]]) -> usize
    requires { Accepted s.now × (length rows.old ≡ most_basic_sets) }
    ensures { Laid s.now rows.new result }
{
    let mut at = 0;
    let mut b = 0;
    while at < s.len() {
        rows[b] = bounds::fresh(at + 1);
        at = codec::end_of(s, at + 1);
        b += 1;
    }
    b
}

// The prefix of no numbers, over a box that fits and is not shut, with the rows of the basic sets.
pub fn begin(
    n: usize,
    s: &[u8],
    low: [i32; limit::AXES],
    high: [i32; limit::AXES],
    limit: u32,
    rows: &mut [[i64; 129]; limit::BASIC_SETS],
) -> Prefix
    requires { Boxed n s.now low high }
    ensures { Begun s.now n low high limit rows.new result }
{
    let low = query::widened(low);
    let high = query::widened(high);
    let count = laid(s, rows);
    Prefix {
        n,
        k: 0,
        limit,
        count,
        low,
        high,
        live: [true; limit::BASIC_SETS],
    }
}
