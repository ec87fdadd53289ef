// The layout of a set's bytes: command bytes, widths, and where the numbers of a command stand. No other crate knows it
// otherwise.
ghost use Rattle.std.specs.Prelude.{◌≡◌, true, ◌<◌, get_or};
ghost use Rattle.codec.specs.Bytes.{is_opening, is_division, is_bare, is_numbered, is_constraint, is_equality, goes_on, has_head, body_of, width_of};
ghost use Rattle.codec.specs.Places.{head_at, body_at, next_of, Whole};

use crate::readers::{code, tail};
use integers::u16_at;
use model::limit;

pub const OPENS: u8 = 0x11;

pub const DIVISION: u8 = 0x12;

pub const EQUALITY: u8 = 0x13;

pub const INEQUALITY: u8 = 0x14;

pub const NUMBERED_EQUALITY: u8 = 0x16;

pub const NUMBERED_INEQUALITY: u8 = 0x17;

// Of a body: where the constant, the axes and, of a constraint, the divisions stand.
pub const CONSTANT_PLACE: usize = 0;

pub const AXES_PLACE: usize = 4;

pub const DIVISIONS_PLACE: usize = 20;

// What stands before the body: the first byte and its head, of a division and of a rule with its number.
pub const HEAD_PLACE: usize = 1;

pub const DIVISION_HEAD: usize = 3;

pub const BARE_HEAD: usize = 1;

pub const NUMBERED_HEAD: usize = 3;

// How long a body is, and a command.
const DIVISION_BODY: usize = AXES_PLACE + 2 * limit::AXES;

pub const CONSTRAINT_BODY: usize = DIVISIONS_PLACE + 2 * limit::DIVISIONS;

pub const DIVISION_WIDTH: usize = DIVISION_HEAD + DIVISION_BODY;

const BARE_WIDTH: usize = BARE_HEAD + CONSTRAINT_BODY;

const NUMBERED_WIDTH: usize = NUMBERED_HEAD + CONSTRAINT_BODY;

// The most bytes that a division and a constraint have.
pub const LONGEST_DIVISION: usize = DIVISION_WIDTH;

pub const LONGEST_CONSTRAINT: usize = NUMBERED_WIDTH;

// Divisions that are past: how many, and the place after them.
#[derive(Clone, Copy)]
pub struct Passed {
    pub count: usize,
    pub next: usize,
}

pub fn is_opening(b: u8) -> bool
    ensures { result ≡ is_opening b }
{
    b == OPENS
}

pub fn is_division(b: u8) -> bool
    ensures { result ≡ is_division b }
{
    b == DIVISION
}

// A rule with its number directly after the command byte.
pub fn is_numbered(b: u8) -> bool
    ensures { result ≡ is_numbered b }
{
    b == NUMBERED_EQUALITY || b == NUMBERED_INEQUALITY
}

fn is_bare(b: u8) -> bool
    ensures { result ≡ is_bare b }
{
    b == EQUALITY || b == INEQUALITY
}

pub fn is_constraint(b: u8) -> bool
    ensures { result ≡ is_constraint b }
{
    is_bare(b) || is_numbered(b)
}

pub fn is_equality(b: u8) -> bool
    ensures { result ≡ is_equality b }
{
    b == EQUALITY || b == NUMBERED_EQUALITY
}

// Whether a head of two bytes stands before the body.
fn has_head(b: u8) -> bool
    ensures { result ≡ has_head b }
{
    is_division(b) || is_numbered(b)
}

fn body_place(b: u8) -> usize
    ensures { result ≡ body_of b }
{
    match b {
        DIVISION => DIVISION_HEAD,
        NUMBERED_EQUALITY | NUMBERED_INEQUALITY => NUMBERED_HEAD,
        _ => BARE_HEAD,
    }
}

pub fn width(b: u8) -> usize
    ensures { result ≡ width_of b }
{
    match b {
        OPENS => 1,
        DIVISION => DIVISION_WIDTH,
        EQUALITY | INEQUALITY => BARE_WIDTH,
        NUMBERED_EQUALITY | NUMBERED_INEQUALITY => NUMBERED_WIDTH,
        _ => 0,
    }
}

// Whether a division, a constraint is at a place; whether the basic set goes on there.
pub fn division_at(s: &[u8], at: usize) -> bool
    ensures { result ≡ is_division (get_or s.now at 0) }
{
    is_division(code(s, at))
}

pub fn constraint_at(s: &[u8], at: usize) -> bool
    ensures { result ≡ is_constraint (get_or s.now at 0) }
{
    is_constraint(code(s, at))
}

// A constraint without a number.
pub fn bare_at(s: &[u8], at: usize) -> bool
    ensures { result ≡ is_bare (get_or s.now at 0) }
{
    is_bare(code(s, at))
}

pub fn goes_on(s: &[u8], at: usize) -> bool
    ensures { result ≡ goes_on (get_or s.now at 0) }
{
    OPENS < code(s, at)
}

// What stands between the first byte of the command at a place and its body: the divisor of a division, the number of a rule,
// otherwise 0.
pub fn head(s: &[u8], at: usize) -> u64
    requires { Whole s.now at }
    ensures is { result ≡ head_at s.now at }
    ensures size { result < 4294967296 }
{
    if has_head(code(s, at)) {
        return u16_at(s, at + HEAD_PLACE);
    }
    0
}

// The head of a rule: its number, 0 where it is written without one.
pub fn rule_number(s: &[u8], at: usize) -> u16
    requires { Whole s.now at × (is_constraint (get_or s.now at 0) ≡ true) }
    ensures { result ≡ head_at s.now at }
{
    if is_numbered(code(s, at)) {
        return u16_at(s, at + HEAD_PLACE) as u16;
    }
    0
}

// The bytes of the command at a place from its constant on.
pub fn body<'a>(s: &'a [u8], at: usize) -> &'a [u8]
    requires { Whole s.now at }
    ensures { result.now ≡ body_at s.now at }
{
    let p = body_place(code(s, at));
    tail(s, at + p)
}

// The place after the command at a place.
pub fn next(s: &[u8], at: usize) -> usize
    requires { Whole s.now at }
    ensures { result ≡ next_of s.now at }
{
    let w = width(code(s, at));
    at + w
}
