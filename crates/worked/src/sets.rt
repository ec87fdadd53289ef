// The sets of the cases, as bytes, over one axis x.
ghost use Rattle.std.specs.Prelude.{◌≡◌, ◌+◌, ◌≤◌, length};
ghost use Rattle.model.specs.Limits.{set_bytes};

use integers::{put_i16, put_i32, put_u16};
use model::limit;

// From a place on: c + a·x + b·q, with the first division q, that is = 0 (`13`) or ≥ 0 (`14`).
pub fn rule(out: &mut [u8], at: usize, kind: u8, c: i32, a: i16, b: i16)
    requires { at + 37 ≤ length out.old }
{
    put_i32(out, at + 1, c);
    put_i16(out, at + 5, a);
    put_i16(out, at + 21, b);
    out[at] = kind;
}

// c + a·x, that is = 0 or ≥ 0.
pub fn one(kind: u8, c: i32, a: i16) -> [u8; 38]
    ensures { 38 ≡ length result }
{
    let mut s = [0u8; 38];
    s[0] = 0x11;
    rule(&mut s, 1, kind, c, a, 0);
    s
}

// c + a·x ≥ 0 and d + b·x ≥ 0.
pub fn two(c: i32, a: i16, d: i32, b: i16) -> [u8; 75]
    ensures { 75 ≡ length result }
{
    let mut s = [0u8; 75];
    s[0] = 0x11;
    rule(&mut s, 1, 0x14, c, a, 0);
    rule(&mut s, 38, 0x14, d, b, 0);
    s
}

// floor(x/10) = -c.
pub fn tenth(c: i32) -> [u8; 61]
    ensures { 61 ≡ length result }
{
    let mut s = [0u8; 61];
    s[0] = 0x11;
    s[1] = 0x12;
    put_u16(&mut s, 2, 10);
    put_i16(&mut s, 8, 1);
    rule(&mut s, 24, 0x13, c, 0, 1);
    s
}

// A table for results.
pub fn table() -> [u8; limit::SET_BYTES]
    ensures { set_bytes ≡ length result }
{
    [0; limit::SET_BYTES]
}

// A basic set of 49 rules that hold everywhere.
pub fn many_rules() -> [u8; 1814]
    ensures { 1814 ≡ length result }
{
    let mut s = [0u8; 1814];
    s[0] = 0x11;
    for i in 0..49 {
        s[1 + 37 * i] = 0x14;
    }
    s
}
