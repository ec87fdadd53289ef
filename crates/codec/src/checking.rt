// The refusal of the bytes of a set (document 01, "Refused"), in one pass and without a copy.
ghost use Rattle.std.specs.Prelude.{◌≡◌, List, ℕ, ◌+◌, ◌-◌, ◌*◌, ◌≤◌, ◌<◌, length, drop, get_or, pos, negsuc};
ghost use Rattle.model.specs.Lists.{all};
ghost use Rattle.model.specs.Sets.{is_zero};
ghost use Rattle.model.specs.Limits.{most_axes, most_divisions, coefficient_places};
ghost use Rattle.codec.specs.Bytes as B;
ghost use Rattle.codec.specs.Bytes.{signed, signed_list, coefficient, division_constant, constant_fits, division_body, constraint_body, read_division, is_misnumbered, read_rule, read_command, division, opens, refusal, head_refusal, decode, number, kind_of};
ghost use Rattle.codec.specs.Checking.{counts_of, bits_allowed};
ghost use Rattle.model.specs.Refused.{number_in};

use crate::accepting::accepts;
use crate::layout::{
    AXES_PLACE, CONSTANT_PLACE, DIVISIONS_PLACE, OPENS, body, head, is_division, is_equality,
    is_numbered, width,
};
use integers::{u16_at, u32_at};
use model::{Refusal, limit};

// How far a set has come: its basic sets, and of the last one the divisions and constraints.
#[derive(Clone, Copy)]
pub struct Counts {
    pub basics: usize,
    pub divisions: usize,
    pub constraints: usize,
}

// Whether the eight numbers of 16 bits from p on are all in the range of a coefficient. All are looked at, so that the compiler compares
// them at once.
fn plain(t: &[u8], p: usize) -> bool
    requires { p + 16 ≤ length t.now }
    ensures { result ≡ all coefficient (signed_list coefficient_places (drop p t.now)) }
{
    let mut ok = true;
    for i in 0..limit::PLACES {
        ok &= u16_at(t, p + 2 * i) != 32768;
    }
    ok
}

fn allowed() -> [u16; 16]
    ensures { result ≡ bits_allowed }
{
    [
        65535, 65535, 65535, 65535, 65535, 65535, 65535, 65535, 0, 0, 0, 0, 0, 0, 0, 0,
    ]
}

// Whether those of the eight numbers from p on that are absent, all but the first n, are 0. `bits` is what `allowed` gives.
fn zeros(t: &[u8], p: usize, n: usize, bits: &[u16]) -> bool
    requires { (p + 16 ≤ length t.now) × (n ≤ coefficient_places) × (bits.now ≡ bits_allowed) }
    ensures { result ≡ all is_zero (signed_list (coefficient_places - n) (drop (p + 2 * n) t.now)) }
{
    let mut ok = true;
    for i in 0..limit::PLACES {
        ok &= u16_at(t, p + 2 * i) <= u64::from(bits[limit::PLACES - n + i]);
    }
    ok
}

// The bits of a division's constant: up to the greatest, and from those of the least on.
const MOST_CONSTANT: u64 = limit::DIVISION_CONSTANT as u64;

const LEAST_CONSTANT: u64 = 4294967296 - MOST_CONSTANT;

fn constant_in(v: u64) -> bool
    requires { v < 4294967296 }
    ensures { result ≡ division_constant (signed 4 v) }
{
    if v < 2147483648 {
        v <= MOST_CONSTANT
    } else {
        LEAST_CONSTANT <= v
    }
}

fn constraint_constant_in(b: u8, v: u64) -> bool
    requires { v < 4294967296 }
    ensures { result ≡ constant_fits (kind_of b) (signed 4 v) }
{
    !is_equality(b) || v != 2147483648
}

fn check_opening(n: usize, k: Counts) -> Result<(), Refusal>
    ensures { number_in result ≡ refusal n (counts_of k) opens }
{
    if limit::BASIC_SETS <= k.basics {
        return Err(Refusal::TooMany);
    }
    Ok(())
}

// A division by d whose body is t.
fn check_division(n: usize, k: Counts, d: u64, t: &[u8], bits: &[u16]) -> Result<(), Refusal>
    requires { (division_body ≤ length t.now) × (n ≤ most_axes) × (bits.now ≡ bits_allowed) }
    ensures { number_in result ≡ refusal n (counts_of k) (division (read_division d t.now)) }
{
    if k.basics == 0 {
        return Err(Refusal::NoBasicSet);
    }
    if k.constraints != 0 {
        return Err(Refusal::LateDivision);
    }
    if limit::DIVISIONS <= k.divisions {
        return Err(Refusal::TooMany);
    }
    if d == 0 || limit::DIVISOR < d {
        return Err(Refusal::BadDivisor);
    }
    if !constant_in(u32_at(t, CONSTANT_PLACE)) {
        return Err(Refusal::OutOfRange);
    }
    if !plain(t, AXES_PLACE) {
        return Err(Refusal::OutOfRange);
    }
    if !zeros(t, AXES_PLACE, n, bits) {
        return Err(Refusal::NotAbsent);
    }
    Ok(())
}

// Whether a constraint whose command is b is written with a number, m, that is 0.
fn is_misnumbered(b: u8, m: u64) -> bool
    ensures { result ≡ is_misnumbered b m }
{
    is_numbered(b) && m == 0
}

// A constraint whose command is b, whose head is m and whose body is t.
fn check_constraint(
    n: usize,
    k: Counts,
    b: u8,
    m: u64,
    t: &[u8],
    bits: &[u16],
) -> Result<(), Refusal>
    requires { (constraint_body ≤ length t.now) × (n ≤ most_axes) × (k.divisions ≤ most_divisions) × (bits.now ≡ bits_allowed) }
    ensures { number_in result ≡ refusal n (counts_of k) (read_rule b m t.now) }
{
    let d = k.divisions;
    if k.basics == 0 {
        return Err(Refusal::NoBasicSet);
    }
    if limit::CONSTRAINTS <= k.constraints {
        return Err(Refusal::TooMany);
    }
    if is_misnumbered(b, m) {
        return Err(Refusal::NoNumber);
    }
    if !constraint_constant_in(b, u32_at(t, CONSTANT_PLACE)) {
        return Err(Refusal::OutOfRange);
    }
    if !plain(t, AXES_PLACE) {
        return Err(Refusal::OutOfRange);
    }
    if !plain(t, DIVISIONS_PLACE) {
        return Err(Refusal::OutOfRange);
    }
    if !zeros(t, AXES_PLACE, n, bits) {
        return Err(Refusal::NotAbsent);
    }
    if !zeros(t, DIVISIONS_PLACE, d, bits) {
        return Err(Refusal::NotAbsent);
    }
    Ok(())
}

// The command at `at`.
fn check_command(n: usize, k: Counts, s: &[u8], at: usize, bits: &[u16]) -> Result<(), Refusal>
    requires { (at < length s.now) × (n ≤ most_axes) × (k.divisions ≤ most_divisions) × (bits.now ≡ bits_allowed) }
    ensures { number_in result ≡ head_refusal n (counts_of k) (get_or s.now at 0) (drop (at + 1) s.now) }
{
    let b = s[at];
    let w = width(b);
    if w == 0 {
        return Err(Refusal::UnknownCommand);
    }
    if s.len() - at < w {
        return Err(Refusal::CutShort);
    }
    if b == OPENS {
        return check_opening(n, k);
    }
    let t = body(s, at);
    let m = head(s, at);
    if is_division(b) {
        return check_division(n, k, m, t, bits);
    }
    check_constraint(n, k, b, m, t, bits)
}

// The counts after the command b.
fn counted(k: Counts, b: u8) -> Counts
    requires { (k.basics < 18446744073709551615) × (k.divisions < 18446744073709551615) × (k.constraints < 18446744073709551615) }
    ensures { (t : List ℕ) → counts_of result ≡ B.counted (counts_of k) (read_command b t) }
{
    if b == OPENS {
        return Counts {
            basics: k.basics + 1,
            divisions: 0,
            constraints: 0,
        };
    }
    if is_division(b) {
        return Counts {
            basics: k.basics,
            divisions: k.divisions + 1,
            constraints: k.constraints,
        };
    }
    Counts {
        basics: k.basics,
        divisions: k.divisions,
        constraints: k.constraints + 1,
    }
}

// The bytes of a set over n axes, command by command.
fn scan(n: usize, s: &[u8], bits: &[u16]) -> Result<(), Refusal>
    requires { (0 < n) × (n ≤ most_axes) × (bits.now ≡ bits_allowed) }
    ensures { number_in result ≡ number (decode n s.now) }
{
    let mut at = 0;
    let mut k = Counts {
        basics: 0,
        divisions: 0,
        constraints: 0,
    };
    while at < s.len() {
        check_command(n, k, s, at, bits)?;
        let b = s[at];
        k = counted(k, b);
        at += width(b);
    }
    Ok(())
}

// Whether the bytes are those of a set, or what refuses them.
pub fn scanned(n: usize, s: &[u8]) -> Result<(), Refusal>
    ensures { number_in result ≡ number (decode n s.now) }
{
    if n == 0 || limit::AXES < n {
        return Err(Refusal::BadAxes);
    }
    let bits = allowed();
    scan(n, s, &bits)
}

// The same; most sets are accepted quickly.
pub fn check(n: usize, s: &[u8]) -> Result<(), Refusal>
    ensures { number_in result ≡ number (decode n s.now) }
{
    match accepts(n, s) {
        Some(_) => Ok(()),
        None => scanned(n, s),
    }
}
