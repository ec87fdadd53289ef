// Scale readings as ranges: the set is searched, then the points of the box outside it.
ghost use Rattle.std.specs.Prelude.{◌≡◌, ◌&&◌, length, take};
ghost use Rattle.codec.specs.Bytes as B;
ghost use Rattle.codec.specs.Refusing.{answer_is};
ghost use Rattle.codec.specs.Places.{set_from};
ghost use Rattle.enumeration.specs.Search as S;
ghost use Rattle.boxes.specs.Range.{range_in, range_bytes};
ghost use Rattle.coverage.specs.Calls.{Asking, Limited, Taken};
ghost use Rattle.coverage.specs.Readings.{inside_of, outside_of, range_by, reading_is, RangeIs};

use crate::outsides::{check_box, taken};
use model::{Refusal, limit};
use search::Outcome;

// `Depends` has the first point in the set and the first outside it, 0 on absent axes. `SpentInside`: the search of the
// set ran out first; `SpentOutside`: that of the points outside it did.
#[derive(Clone, Copy)]
pub enum Range {
    Sure,
    Never,
    Depends {
        inside: [i64; limit::AXES],
        outside: [i64; limit::AXES],
    },
    SpentInside,
    SpentOutside,
}

// A range, and the length of the difference of the box and the set.
#[derive(Clone, Copy)]
pub struct Reading {
    pub range: Range,
    pub length: usize,
}

impl Reading {
    // The point in the set, if it depends; otherwise zeros.
    pub fn inside(self) -> [i64; limit::AXES]
        ensures { result ≡ inside_of self.range }
    {
        match self.range {
            Range::Depends { inside, .. } => inside,
            Range::Sure | Range::Never | Range::SpentInside | Range::SpentOutside => {
                [0; limit::AXES]
            }
        }
    }

    // The point outside it, likewise.
    pub fn outside(self) -> [i64; limit::AXES]
        ensures { result ≡ outside_of self.range }
    {
        match self.range {
            Range::Depends { outside, .. } => outside,
            Range::Sure | Range::Never | Range::SpentInside | Range::SpentOutside => {
                [0; limit::AXES]
            }
        }
    }
}

// The range by how the two searches ended.
fn ranged(inside: Outcome, outside: Outcome) -> Range
    ensures { result ≡ range_by inside outside }
{
    match inside {
        Outcome::Spent => Range::SpentInside,
        Outcome::Nothing => match outside {
            Outcome::Spent => Range::SpentOutside,
            Outcome::Nothing | Outcome::At(_) => Range::Never,
        },
        Outcome::At(inside) => match outside {
            Outcome::Spent => Range::SpentOutside,
            Outcome::Nothing => Range::Sure,
            Outcome::At(outside) => Range::Depends { inside, outside },
        },
    }
}

fn limits_fit(inside: u32, outside: u32) -> bool
    ensures { result ≡ (S.limit_fits inside && S.limit_fits outside) }
{
    search::limit_fits(inside) && search::limit_fits(outside)
}

// The refusal of the set, of the box, or of a limit.
fn check_range(
    n: usize,
    set: &[u8],
    lows: [i32; limit::AXES],
    highs: [i32; limit::AXES],
    inside: u32,
    outside: u32,
) -> Result<(), Refusal>
    ensures { Limited n set.now lows highs inside outside result }
{
    check_box(n, set, lows, highs)?;
    if !limits_fit(inside, outside) {
        return Err(Refusal::BadLimit);
    }
    Ok(())
}

// Both searches, once the difference is the first l bytes of the table.
fn searched(
    n: usize,
    set: &[u8],
    lows: [i32; limit::AXES],
    highs: [i32; limit::AXES],
    inside: u32,
    outside: u32,
    table: &[u8],
    l: usize,
) -> Result<Reading, Refusal>
    requires { Asking n set.now lows highs inside outside × Taken n set.now lows highs table.now l }
    ensures { answer_is (λ x. x) result ≡ reading_is (B.gives (record { range = range_in n (set_from set.now 0) lows highs inside outside; bytes = take l table.now })) }
{
    let p = search::first_point(n, set, lows, highs, inside)?;
    let q = search::first_point(n, &table[..l], lows, highs, outside)?;
    Ok(Reading {
        range: ranged(p.outcome, q.outcome),
        length: l,
    })
}

// The range of the box; the difference of the box and the set stays in the table.
pub fn box_range(
    n: usize,
    set: &[u8],
    lows: [i32; limit::AXES],
    highs: [i32; limit::AXES],
    inside: u32,
    outside: u32,
    out: &mut [u8],
) -> Result<Reading, Refusal>
    ensures { RangeIs (length out.old) (range_bytes n (length out.old) set.now lows highs inside outside) result out.new }
{
    match check_range(n, set, lows, highs, inside, outside) {
        Ok(()) => {
            let l = taken(n, set, lows, highs, out)?;
            searched(n, set, lows, highs, inside, outside, out, l)
        }
        Err(refusal) => {
            out.fill(0);
            Err(refusal)
        }
    }
}
