// The first-point search: its answer, its tally and its point.
ghost use Rattle.std.specs.Prelude.{◌≡◌, [], ◌∷◌, get_or, pos, slice_index_or};
ghost use Rattle.codec.specs.Refusing.{answer_is};
ghost use Rattle.enumeration.specs.Search.{search_bytes};
ghost use Rattle.search.specs.Sides.{answer_of};
ghost use Rattle.probe.specs.Numbers.{search_number, tested_in, point_in};

use crate::numbers::search_number;
use model::{Refusal, limit};
use search::FirstPoint;

// search::first_point: 0 at a point, 1 none, 2 spent, 100 and the number of a refusal.
#[unsafe(no_mangle)]
pub extern "C" fn probe_search(
    n: usize,
    set: &[u8],
    limit: u32,
    l1: i32,
    l2: i32,
    l3: i32,
    l4: i32,
    l5: i32,
    l6: i32,
    l7: i32,
    l8: i32,
    h1: i32,
    h2: i32,
    h3: i32,
    h4: i32,
    h5: i32,
    h6: i32,
    h7: i32,
    h8: i32,
) -> u64
    ensures { result ≡ search_number (answer_of (search_bytes n set.now
        (l1 ∷ l2 ∷ l3 ∷ l4 ∷ l5 ∷ l6 ∷ l7 ∷ l8 ∷ []) (h1 ∷ h2 ∷ h3 ∷ h4 ∷ h5 ∷ h6 ∷ h7 ∷ h8 ∷ []) limit)) }
{
    let found = search::first_point(
        n,
        set,
        [l1, l2, l3, l4, l5, l6, l7, l8],
        [h1, h2, h3, h4, h5, h6, h7, h8],
        limit,
    );
    search_number(found)
}

// Its tally.
#[unsafe(no_mangle)]
pub extern "C" fn probe_tally(
    n: usize,
    set: &[u8],
    limit: u32,
    l1: i32,
    l2: i32,
    l3: i32,
    l4: i32,
    l5: i32,
    l6: i32,
    l7: i32,
    l8: i32,
    h1: i32,
    h2: i32,
    h3: i32,
    h4: i32,
    h5: i32,
    h6: i32,
    h7: i32,
    h8: i32,
) -> u32
    ensures { result ≡ tested_in (answer_of (search_bytes n set.now
        (l1 ∷ l2 ∷ l3 ∷ l4 ∷ l5 ∷ l6 ∷ l7 ∷ l8 ∷ []) (h1 ∷ h2 ∷ h3 ∷ h4 ∷ h5 ∷ h6 ∷ h7 ∷ h8 ∷ []) limit)) }
{
    let found = search::first_point(
        n,
        set,
        [l1, l2, l3, l4, l5, l6, l7, l8],
        [h1, h2, h3, h4, h5, h6, h7, h8],
        limit,
    );
    found.map_or(0, |found| found.tested)
}

// The point; zeros where there is none.
fn point_in(found: Result<FirstPoint, Refusal>) -> [i64; limit::AXES]
    ensures { result ≡ point_in (answer_is (λ x. x) found) }
{
    found.map_or([0; limit::AXES], FirstPoint::point)
}

fn coordinate(point: [i64; limit::AXES], i: usize) -> i64
    ensures { result ≡ slice_index_or point i (pos 0) }
{
    point.get(i).copied().unwrap_or(0)
}

// Its coordinate i, from 0; 0 past the eighth.
#[unsafe(no_mangle)]
pub extern "C" fn probe_coordinate(
    n: usize,
    set: &[u8],
    limit: u32,
    l1: i32,
    l2: i32,
    l3: i32,
    l4: i32,
    l5: i32,
    l6: i32,
    l7: i32,
    l8: i32,
    h1: i32,
    h2: i32,
    h3: i32,
    h4: i32,
    h5: i32,
    h6: i32,
    h7: i32,
    h8: i32,
    i: usize,
) -> i64
    ensures { result ≡ get_or (point_in (answer_of (search_bytes n set.now
        (l1 ∷ l2 ∷ l3 ∷ l4 ∷ l5 ∷ l6 ∷ l7 ∷ l8 ∷ []) (h1 ∷ h2 ∷ h3 ∷ h4 ∷ h5 ∷ h6 ∷ h7 ∷ h8 ∷ []) limit)))
        i (pos 0) }
{
    let found = search::first_point(
        n,
        set,
        [l1, l2, l3, l4, l5, l6, l7, l8],
        [h1, h2, h3, h4, h5, h6, h7, h8],
        limit,
    );
    coordinate(point_in(found), i)
}
