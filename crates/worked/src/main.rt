// Document 01's worked cases and the small example of each refusal, as calls of the library.
#![tactic(auto)]

mod refusals;
mod sets;
mod telling;

use sets::{one, table, tenth, two};
use std::io;
use std::io::{Stdout, Write};
use telling::{found, length, membership, outcome, refused, say, tested};

fn holds(to: &mut Stdout, words: &[u8], set: &[u8], x: i32) -> io::Result<()> {
    say(to, words)?;
    membership(to, query::member(1, set, [x, 0, 0, 0, 0, 0, 0, 0]))
}

fn minus(to: &mut Stdout, words: &[u8], a: &[u8], b: &[u8]) -> io::Result<()> {
    let mut out = table();
    say(to, words)?;
    outcome(to, operations::difference(1, a, b, &mut out))
}

fn with(to: &mut Stdout, words: &[u8], a: &[u8], b: &[u8]) -> io::Result<()> {
    let mut out = table();
    say(to, words)?;
    outcome(to, operations::intersection(1, a, b, &mut out))
}

fn without(to: &mut Stdout, words: &[u8], a: &[u8]) -> io::Result<()> {
    let mut out = table();
    say(to, words)?;
    outcome(to, operations::complement(1, a, &mut out))
}

fn searched(to: &mut Stdout, words: &[u8], set: &[u8], limit: u32) -> io::Result<()> {
    say(to, words)?;
    found(
        to,
        search::first_point(1, set, [0; 8], [1, 0, 0, 0, 0, 0, 0, 0], limit),
    )
}

// A is 0 <= x <= 2186.
fn in_a(to: &mut Stdout, a: &[u8]) -> io::Result<()> {
    holds(to, b"2186 in A: ", a, 2186)?;
    holds(to, b"2187 in A: ", a, 2187)
}

fn cut_from_a(to: &mut Stdout, a: &[u8]) -> io::Result<()> {
    minus(to, b"A minus {floor(x/10) = 218}: ", a, &tenth(-218))?;
    minus(to, b"A minus A: ", a, a)?;
    minus(to, b"A minus nothing: ", a, b"")
}

fn beside(to: &mut Stdout, a: &[u8]) -> io::Result<()> {
    without(to, b"complement of nothing: ", b"")?;
    without(to, b"complement of A: ", a)
}

fn on_a(to: &mut Stdout) -> io::Result<()> {
    let a = two(0, 1, 2186, -1);
    in_a(to, &a)?;
    cut_from_a(to, &a)?;
    beside(to, &a)
}

fn on_floors(to: &mut Stdout) -> io::Result<()> {
    holds(to, b"floor(-1/10) is -1: ", &tenth(1), -1)?;
    holds(to, b"floor(-2186/10) is -219: ", &tenth(219), -2186)
}

// x + c >= 0 with -x >= 0: the two as one basic set are what is tested.
fn apart(to: &mut Stdout, words: &[u8], c: i32) -> io::Result<()> {
    with(to, words, &one(0x14, c, 1), &one(0x14, 0, -1))?;
    say(to, b"tested: ")?;
    tested(to, carrying::test(1, &two(c, 1, 0, -1), 1))
}

fn halves(to: &mut Stdout, half: &[u8]) -> io::Result<()> {
    with(to, b"2x - 1 = 0 with the rule-less set: ", half, b"\x11")?;
    searched(to, b"searched over 0 to 1: ", half, 1000000)?;
    searched(to, b"with limit 1: ", half, 1)
}

// The complement of x - 2147483648 >= 0 is its opposite alone, whose constant stands at byte 2.
fn on_opposite(to: &mut Stdout) -> io::Result<()> {
    let mut out = table();
    say(to, b"the opposite of x - 2147483648 >= 0 has constant ")?;
    match operations::complement(1, &one(0x14, i32::MIN, 1), &mut out) {
        Ok(_) => writeln!(to, "{}", integers::u32_at(&out, 2)),
        Err(refusal) => refused(to, refusal),
    }
}

// Parts of the lent tables, of A and of its complement.
fn parts<'a>(to: &mut Stdout, a: &'a [u8], rest: &'a [u8]) -> io::Result<()> {
    say(to, b"basic set 2 of the complement of A: ")?;
    length(to, codec::basic(1, rest, 2).len())?;
    say(to, b"what holds 2187, of A and its complement: ")?;
    length(
        to,
        query::holder(1, a, rest, [2187, 0, 0, 0, 0, 0, 0, 0]).len(),
    )
}

fn on_parts(to: &mut Stdout) -> io::Result<()> {
    let a = two(0, 1, 2186, -1);
    let mut out = [0u8; 113];
    match operations::complement(1, &a, &mut out) {
        Ok(_) => parts(to, &a, &out),
        Err(refusal) => refused(to, refusal),
    }
}

fn main(rt: HostRuntime) -> io::Result<()> {
    let to = &mut rt.stdout();
    on_a(to)?;
    on_floors(to)?;
    on_opposite(to)?;
    apart(to, b"x - 2147483647 >= 0 with -x >= 0: ", -2147483647)?;
    apart(to, b"x - 2147483648 >= 0 with -x >= 0: ", i32::MIN)?;
    halves(to, &one(0x13, -1, 2))?;
    on_parts(to)?;
    refusals::layout(to)?;
    refusals::numbers(to)?;
    refusals::operations(to)?;
    refusals::asking(to)?;
    refusals::script(to)
}
