// An answer as a number: what each case is stands in specs/Numbers; a refusal is minus its number.
ghost use Rattle.std.specs.Prelude.{◌≡◌, pos, neg_ℤ};
ghost use Rattle.codec.specs.Refusing.{answer_by};
ghost use Rattle.fleet.specs.Looking.{seen_is};
ghost use Rattle.extremes.specs.Answers.{extreme_is};
ghost use Rattle.states.specs.Calls.{word_is, said_by};
ghost use Rattle.answers.specs.Numbers.{member_number, Short, length_number, outcome_number, fleet_number, range_number, reading_number, said_number, extreme_number, extent_number};

use crate::Numbered;
use counting::Counted;
use coverage::{Range, Reading};
use extremes::Extent;
use fleet::Seen;
use states::Said;

fn refused<E: Numbered>(refusal: E) -> i64
    ensures { result ≡ neg_ℤ (pos (E.number_of refusal)) }
{
    -i64::from(refusal.number())
}

pub fn member_number<E: Numbered>(held: Result<bool, E>) -> i64
    ensures { result ≡ member_number (answer_by E.number_of (λ b. b) held) }
{
    held.map_or_else(refused, i64::from)
}

pub fn length_number<E: Numbered>(length: Result<usize, E>) -> i64
    requires { Short (answer_by E.number_of (λ l. l) length) }
    ensures { result ≡ length_number (answer_by E.number_of (λ l. l) length) }
{
    length.map_or_else(refused, |length| length as i64)
}

pub fn count_number<E: Numbered>(count: Result<Counted, E>) -> i64
    ensures { result ≡ outcome_number (answer_by E.number_of (λ c. c) count) }
{
    count.map_or_else(refused, |count| count.whole.map_or(-1000, i64::from))
}

pub fn fleet_number<E: Numbered>(look: Result<Seen, E>) -> i64
    ensures { result ≡ fleet_number (answer_by E.number_of seen_is look) }
{
    look.map_or_else(refused, |seen| i64::from(seen.count))
}

fn range_told(range: Range) -> i64
    ensures { result ≡ range_number range }
{
    match range {
        Range::Sure => 1,
        Range::Never => 2,
        Range::Depends { .. } => 3,
        Range::SpentInside => 4,
        Range::SpentOutside => 5,
    }
}

pub fn range_number<E: Numbered>(reading: Result<Reading, E>) -> i64
    ensures { result ≡ reading_number (answer_by E.number_of (λ x. x) reading) }
{
    reading.map_or_else(refused, |reading| range_told(reading.range))
}

fn word(said: Said) -> i64
    ensures { result ≡ said_number (word_is said) }
{
    match said {
        Said::Misused => 0,
        Said::Point => 1,
        Said::Empty => 2,
        Said::Wide => 3,
        Said::Long => 4,
    }
}

pub fn said_number<E: Numbered>(said: Result<Said, E>) -> i64
    ensures { result ≡ said_number (said_by E.number_of said) }
{
    said.map_or_else(refused, word)
}

fn extent_told(extent: Extent) -> i64
    ensures { result ≡ extreme_number (extreme_is extent) }
{
    match extent {
        Extent::Value(_) => 1,
        Extent::Empty => 2,
        Extent::Unbounded => 3,
        Extent::TooWide => 4,
        Extent::TooLong => 5,
    }
}

pub fn extent_number<E: Numbered>(extent: Result<Extent, E>) -> i64
    ensures { result ≡ extent_number (answer_by E.number_of extreme_is extent) }
{
    extent.map_or_else(refused, extent_told)
}
