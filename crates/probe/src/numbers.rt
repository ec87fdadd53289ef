// Answers as the numbers that C gets: a refusal is 100 and its number, but for a length.
ghost use Rattle.std.specs.Prelude.{◌≡◌};
ghost use Rattle.model.specs.Refused.{number_of};
ghost use Rattle.codec.specs.Refusing.{answer_is};
ghost use Rattle.query.specs.Holding.{member_is};
ghost use Rattle.simplex.specs.Answers.{verdict_of};
ghost use Rattle.carrying.specs.Answers.{tested_of};
ghost use Rattle.extremes.specs.Answers.{extreme_is, extent_is};
ghost use Rattle.fleet.specs.Looking.{fleet_is};
ghost use Rattle.results.specs.Outcome.{outcome_is};
ghost use Rattle.probe.specs.Numbers.{refusal_number, member_number, outcome_number, search_number, length_number};
ghost use Rattle.probe.specs.Numbers.{verdict_number, test_number, pivots_number};
ghost use Rattle.probe.specs.Counts.{whole_number, count_number};
ghost use Rattle.probe.specs.Fleets.{fleet_number};
ghost use Rattle.probe.specs.Ranges.{range_number, reading_number};
ghost use Rattle.probe.specs.Values.{extreme_number, extent_number};

use counting::Counted;
use coverage::{Range, Reading};
use extremes::Extent;
use fleet::Seen;
use model::Refusal;
use search::{FirstPoint, Outcome};
use simplex::{Ended, Verdict};

fn refused(refusal: Refusal) -> u64
    ensures { result ≡ refusal_number (number_of refusal) }
{
    100 + u64::from(refusal.number())
}

pub fn member_number(held: Result<bool, Refusal>) -> u64
    ensures { result ≡ member_number (member_is held) }
{
    held.map_or_else(refused, u64::from)
}

fn verdict_number(verdict: Verdict) -> u64
    ensures { result ≡ verdict_number (verdict_of verdict) }
{
    match verdict {
        Verdict::Point => 0,
        Verdict::Dropped => 1,
        Verdict::Long => 2,
        Verdict::Wide => 3,
    }
}

pub fn test_number(test: Result<Option<Ended>, Refusal>) -> u64
    ensures { result ≡ test_number (tested_of test) }
{
    match test {
        Err(refusal) => refused(refusal),
        Ok(None) => 4,
        Ok(Some(ended)) => verdict_number(ended.verdict),
    }
}

pub fn pivots_number(test: Result<Option<Ended>, Refusal>) -> usize
    ensures { result ≡ pivots_number (tested_of test) }
{
    match test {
        Ok(Some(ended)) => ended.pivots,
        _ => 0,
    }
}

fn outcome_number(outcome: Outcome) -> u64
    ensures { result ≡ outcome_number outcome }
{
    match outcome {
        Outcome::At(_) => 0,
        Outcome::Nothing => 1,
        Outcome::Spent => 2,
    }
}

pub fn search_number(found: Result<FirstPoint, Refusal>) -> u64
    ensures { result ≡ search_number (answer_is (λ x. x) found) }
{
    found.map_or_else(refused, |found| outcome_number(found.outcome))
}

pub fn count_number(count: Result<Counted, Refusal>) -> u64
    ensures { result ≡ count_number (answer_is (λ x. x) count) }
{
    count.map_or_else(refused, |count| if count.whole.is_some() { 0 } else { 2 })
}

pub fn fleet_number(look: Result<Seen, Refusal>) -> u64
    ensures { result ≡ fleet_number (fleet_is look) }
{
    look.map_or_else(refused, |seen| u64::from(seen.count))
}

fn range_told(range: Range) -> u64
    ensures { result ≡ range_number range }
{
    match range {
        Range::Sure => 0,
        Range::Never => 1,
        Range::Depends { .. } => 2,
        Range::SpentInside => 3,
        Range::SpentOutside => 4,
    }
}

pub fn range_number(reading: Result<Reading, Refusal>) -> u64
    ensures { result ≡ reading_number (answer_is (λ x. x) reading) }
{
    reading.map_or_else(refused, |reading| range_told(reading.range))
}

fn extent_told(extent: Extent) -> u64
    ensures { result ≡ extreme_number (extreme_is extent) }
{
    match extent {
        Extent::Value(_) => 0,
        Extent::Empty => 1,
        Extent::Unbounded => 2,
        Extent::TooWide => 3,
        Extent::TooLong => 4,
    }
}

pub fn extent_number(extent: Result<Extent, Refusal>) -> u64
    ensures { result ≡ extent_number (extent_is extent) }
{
    extent.map_or_else(refused, extent_told)
}

// A refusal is a number that no length is.
pub fn length_number(length: Result<usize, Refusal>) -> usize
    ensures { result ≡ length_number (outcome_is length) }
{
    match length {
        Ok(length) => length,
        Err(refusal) => usize::MAX - refusal.number() as usize,
    }
}
