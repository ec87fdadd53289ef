// A basic set as the part of the lent table that holds it, and the walk from basic set to basic set.
ghost use Rattle.std.specs.Prelude.{◌≡◌, ◌+◌, ◌-◌, ◌≤◌, IfOk, length, take, drop};
ghost use Rattle.model.specs.Refused.{number_in};
ghost use Rattle.codec.specs.Bytes.{decode, number};
ghost use Rattle.codec.specs.Places.{set_from, end_of, Accepted, Opened};
ghost use Rattle.codec.specs.Parts.{part_of, held, Started};

use crate::accepting::accepts;
use crate::checking::{check, scanned};
use crate::layout::{goes_on, width};
use crate::readers::code;
use model::Refusal;

// The place after the basic set of checked bytes whose commands start at `start`.
pub fn end_of(s: &[u8], start: usize) -> usize
    requires { Opened s.now start }
    ensures { result ≡ end_of s.now start }
{
    let mut at = start;
    while goes_on(s, at) {
        at += width(code(s, at));
    }
    at
}

// How many basic sets checked bytes have.
pub fn count(s: &[u8]) -> usize
    requires { Accepted s.now }
    ensures { result ≡ length (set_from s.now 0) }
{
    let mut at = 0;
    let mut k = 0;
    while at < s.len() {
        at = end_of(s, at + 1);
        k += 1;
    }
    k
}

// The same check, and how many basic sets the bytes have.
pub fn check_counting(n: usize, s: &[u8]) -> Result<usize, Refusal>
    ensures refusal { number_in result ≡ number (decode n s.now) }
    ensures basics { IfOk result (λ basics. basics ≡ length (set_from s.now 0)) }
{
    if let Some(basics) = accepts(n, s) {
        return Ok(basics);
    }
    scanned(n, s)?;
    Ok(count(s))
}

// The place of basic set number i of checked bytes, the first being 0; the end of the bytes where there are fewer.
pub fn start_of(s: &[u8], i: usize) -> usize
    requires { Accepted s.now }
    ensures { Started s.now i result }
{
    let mut at = 0;
    for j in 0..i {
        if s.len() <= at {
            return at;
        }
        at = end_of(s, at + 1);
    }
    at
}

fn part<'a>(s: &'a [u8], from: usize, to: usize) -> &'a [u8]
    requires { (from ≤ to) × (to ≤ length s.now) }
    ensures bytes { result.now ≡ take (to - from) (drop from s.now) }
    ensures place { result.ref_ptr ≡ (s.entry.ref_ptr.0, s.entry.ref_ptr.1 + from) }
{
    &s[from..to]
}

// Basic set number k, from 1, as the very part of the lent table that holds it; the empty part at its start where there is none
// or the bytes are refused.
pub fn basic<'a>(n: usize, set: &'a [u8], k: usize) -> &'a [u8]
    ensures bytes { result.now ≡ held (part_of n set.now k) set.now }
    ensures place { result.ref_ptr ≡ (set.entry.ref_ptr.0, set.entry.ref_ptr.1 + (part_of n set.now k).place) }
{
    if k == 0 || check(n, set).is_err() {
        return part(set, 0, 0);
    }
    let at = start_of(set, k - 1);
    if set.len() <= at {
        return part(set, 0, 0);
    }
    let end = end_of(set, at + 1);
    part(set, at, end)
}
