// The lines that the script program prints, each from the start of a lent buffer. Each gives its length.
ghost use Rattle.std.specs.Prelude.{[], ◌∷◌, ◌++◌, ◌+◌, ◌≤◌, pos, length, take};
ghost use Rattle.model.specs.Limits.{most_axes, most_divisions};
ghost use Rattle.codec.specs.Bytes.{division_body, constraint_body, read_division, read_constraint, kind_of};
ghost use Rattle.listing.specs.Text as T;
ghost use Rattle.listing.specs.Written.{Writes};

use crate::text::{coefficients, coordinates, natural, number, word};
use model::limit;

// A word and one number.
pub fn counted_line(out: &mut [u8], w: &[u8], k: u64) -> usize
    requires { (512 ≤ length out.old) × (length w.now ≤ 8) }
    ensures { Writes 30 (w.now ++ (T.number (pos k) ++ (10 ∷ []))) out.old 0 result out.new }
{
    let at = word(out, 0, w);
    let at = natural(out, at, k);
    word(out, at, b"\n")
}

// `set`, its number, `has` and the count of its basic sets.
pub fn header(out: &mut [u8], m: u64, count: u64) -> usize
    requires { 512 ≤ length out.old }
    ensures { Writes 50 (T.codes "set" ++ (T.number (pos m) ++ T.line " has" (pos count ∷ []))) out.old 0 result out.new }
{
    let at = word(out, 0, b"set");
    let at = natural(out, at, m);
    let at = word(out, at, b" has");
    let at = natural(out, at, count);
    word(out, at, b"\n")
}

// A division by d whose body is t.
pub fn division_line(out: &mut [u8], n: usize, d: u64, t: &[u8]) -> usize
    requires { (512 ≤ length out.old) × (n ≤ most_axes) × (division_body ≤ length t.now) }
    ensures { Writes 512 (T.division_line n (read_division d t.now)) out.old 0 result out.new }
{
    let at = word(out, 0, b"div");
    let at = natural(out, at, d);
    let at = number(
        out,
        at,
        integers::u32_at(t, codec::CONSTANT_PLACE),
        4294967296,
    );
    let at = coefficients(out, at, t, codec::AXES_PLACE, n);
    word(out, at, b"\n")
}

fn kind_word(out: &mut [u8], b: u8) -> usize
    requires { 512 ≤ length out.old }
    ensures { Writes 2 (T.codes (T.word (kind_of b))) out.old 0 result out.new }
{
    word(out, 0, if codec::is_equality(b) { b"eq" } else { b"ge" })
}

// A constraint whose command is b and whose body is t, in a basic set of k divisions.
pub fn constraint_line(out: &mut [u8], n: usize, k: usize, b: u8, t: &[u8]) -> usize
    requires { (512 ≤ length out.old) × (n ≤ most_axes) × (k ≤ most_divisions) × (constraint_body ≤ length t.now) }
    ensures { Writes 512 (T.constraint_line n k (read_constraint (kind_of b) t.now)) out.old 0 result out.new }
{
    let at = kind_word(out, b);
    let at = number(
        out,
        at,
        integers::u32_at(t, codec::CONSTANT_PLACE),
        4294967296,
    );
    let at = coefficients(out, at, t, codec::AXES_PLACE, n);
    let at = coefficients(out, at, t, codec::DIVISIONS_PLACE, k);
    word(out, at, b"\n")
}

// `at`, the first n coordinates of p, and k.
pub fn at_line(out: &mut [u8], n: usize, p: [i64; limit::AXES], k: u64) -> usize
    requires { (n ≤ most_axes) × (512 ≤ length out.old) }
    ensures { Writes 512 (T.line "at" (take n p ++ (pos k ∷ []))) out.old 0 result out.new }
{
    let at = word(out, 0, b"at");
    let at = coordinates(out, at, p, n);
    let at = natural(out, at, k);
    word(out, at, b"\n")
}
