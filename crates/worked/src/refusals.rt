// The small example of each number that document 01 gives for a refusal, in the order of its table.
ghost use Rattle.std.specs.Prelude.{◌≡◌, ◌+◌, ◌≤◌, length};

use crate::sets::{many_rules, one, table, two};
use crate::telling::{found, outcome, refused, say};
use integers::put_i16;
use session::State;
use std::io;
use std::io::Stdout;

fn checked(to: &mut Stdout, words: &[u8], n: usize, set: &[u8]) -> io::Result<()> {
    say(to, words)?;
    match codec::check(n, set) {
        Ok(()) => say(to, b"accepted\n"),
        Err(refusal) => refused(to, refusal),
    }
}

// One rule, 0 but for the coefficient at a place of the bytes.
fn coefficient(to: &mut Stdout, words: &[u8], p: usize, z: i16) -> io::Result<()>
    requires { p + 2 ≤ 38 }
{
    let mut s = one(0x14, 0, 0);
    put_i16(&mut s, p, z);
    checked(to, words, 1, &s)
}

// `11`, a rule, a division.
fn late_division() -> [u8; 61]
    ensures { 61 ≡ length result }
{
    let mut s = [0u8; 61];
    s[0] = 0x11;
    s[1] = 0x14;
    s[38] = 0x12;
    s[39] = 1;
    s
}

fn lone() -> [u8; 37]
    ensures { 37 ≡ length result }
{
    let mut s = [0u8; 37];
    s[0] = 0x14;
    s
}

pub fn layout(to: &mut Stdout) -> io::Result<()> {
    checked(to, b"n = 0: ", 0, b"\x11")?;
    checked(to, b"99: ", 1, b"\x99")?;
    checked(to, b"11 14 00: ", 1, b"\x11\x14\x00")?;
    checked(to, b"a lone rule: ", 1, &lone())?;
    checked(to, b"11, rule, 12: ", 1, &late_division())
}

fn zero_divisor() -> [u8; 24]
    ensures { 24 ≡ length result }
{
    let mut s = [0u8; 24];
    s[0] = 0x11;
    s[1] = 0x12;
    s
}

pub fn numbers(to: &mut Stdout) -> io::Result<()> {
    checked(to, b"d = 0: ", 1, &zero_divisor())?;
    coefficient(to, b"coefficient -32768: ", 6, i16::MIN)?;
    coefficient(to, b"n = 1, place 2 is 5: ", 8, 5)?;
    checked(to, b"49 rules: ", 1, &many_rules())
}

fn united(to: &mut Stdout, words: &[u8], a: &[u8], b: &[u8], out: &mut [u8]) -> io::Result<()> {
    say(to, words)?;
    outcome(to, operations::union(1, a, b, out))
}

pub fn operations(to: &mut Stdout) -> io::Result<()> {
    let mut out = table();
    let mut short = [0u8; 74];
    united(to, b"union of 32 and 1: ", &[17u8; 32], b"\x11", &mut out)?;
    united(
        to,
        b"result of 75 bytes, table of 74: ",
        &two(0, 1, 2186, -1),
        b"",
        &mut short,
    )
}

fn searched(to: &mut Stdout, words: &[u8], low: i32, high: i32, limit: u32) -> io::Result<()> {
    say(to, words)?;
    found(
        to,
        search::first_point(
            1,
            b"\x11",
            [low, 0, 0, 0, 0, 0, 0, 0],
            [high, 0, 0, 0, 0, 0, 0, 0],
            limit,
        ),
    )
}

// A window that shuts before it opens is not refused (document 02, request 7).
pub fn asking(to: &mut Stdout) -> io::Result<()> {
    searched(to, b"low 5, high 4: ", 5, 4, 1)?;
    searched(to, b"coordinate 1048577: ", 0, 1048577, 1)?;
    searched(to, b"limit 0: ", 4, 5, 0)
}

fn tables() -> [u8; 32000] {
    [0; 32000]
}

fn show(to: &mut Stdout, text: &[u8], n: usize) -> io::Result<()>
    requires { n ≤ length text.now }
{
    say(to, &text[..n])
}

// One turn of the script program, with n axes (0: before `10`) and this much of the script read.
fn turn(to: &mut Stdout, words: &[u8], n: usize, input: &[u8]) -> io::Result<()> {
    let mut sets = tables();
    let mut lengths = [0usize; 4];
    let mut result = table();
    let mut text = [0u8; 512];
    let state = State {
        axes: n,
        listing: None,
    };
    let t = script::step(
        state,
        input,
        true,
        &mut sets,
        &mut lengths,
        &mut result,
        &mut text,
    );
    say(to, words)?;
    show(to, &text, t.text)
}

pub fn script(to: &mut Stdout) -> io::Result<()> {
    turn(to, b"45 04: ", 1, b"\x45\x04")?;
    turn(to, b"45 00 first: ", 0, b"\x45\x00")
}
