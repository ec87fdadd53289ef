// A value in words: numerator and denominator, two words each, as two's complement, the lower word first.
ghost use Rattle.std.specs.Prelude.{◌≡◌, ◌/◌, ◌%◌, ℕ};
ghost use Rattle.codec.specs.Refusing.{answer_by};
ghost use Rattle.wide.specs.Wide.{value_of};
ghost use Rattle.extremes.specs.Answers.{fraction_is, extreme_is};
ghost use Rattle.extremes.specs.Words.{complement, extreme_words, value_words};

use crate::{Extent, Fraction};
use wide::Wide;

fn low(x: Wide) -> u64
    ensures { result ≡ complement (value_of x) % 18446744073709551616 }
{
    let m = x.magnitude;
    let l = m.lo;
    if !wide::is_negative(x) {
        return l;
    }
    if l == 0 {
        return 0;
    }
    18446744073709551615 - l + 1
}

fn high(x: Wide) -> u64
    ensures { result ≡ complement (value_of x) / 18446744073709551616 }
{
    let m = x.magnitude;
    let h = m.hi;
    let l = m.lo;
    if !wide::is_negative(x) {
        return h;
    }
    if l == 0 {
        return 18446744073709551615 - h + 1;
    }
    18446744073709551615 - h
}

fn fraction_words(f: Fraction) -> [u64; 4]
    ensures { result ≡ extreme_words (fraction_is f) }
{
    let x = f.numerator;
    let d = f.denominator;
    [low(x), high(x), d.lo, d.hi]
}

// 0 where there is no value; whatever tells a refusal.
pub fn value_words<E: Drop>(answer: Result<Extent, E>) -> [u64; 4]
    ensures { (number : E → ℕ) → result ≡ value_words (answer_by number extreme_is answer) }
{
    match answer {
        Ok(Extent::Value(f)) => fraction_words(f),
        _ => [0u64; 4],
    }
}
