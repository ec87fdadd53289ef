// Answers, as lines of text.
use model::Refusal;
use search::{FirstPoint, Outcome};
use simplex::{Ended, Verdict};
use std::io;
use std::io::{Stdout, Write};

pub fn say(to: &mut Stdout, words: &[u8]) -> io::Result<()> {
    to.write_all(words)
}

pub fn refused(to: &mut Stdout, refusal: Refusal) -> io::Result<()> {
    writeln!(to, "refused {}", refusal.number())
}

pub fn length(to: &mut Stdout, n: usize) -> io::Result<()> {
    writeln!(to, "length {n}")
}

// An operation: how long the result is.
pub fn outcome(to: &mut Stdout, answer: Result<usize, Refusal>) -> io::Result<()> {
    match answer {
        Ok(n) => length(to, n),
        Err(refusal) => refused(to, refusal),
    }
}

pub fn membership(to: &mut Stdout, held: Result<bool, Refusal>) -> io::Result<()> {
    match held {
        Ok(true) => say(to, b"in\n"),
        Ok(false) => say(to, b"out\n"),
        Err(refusal) => refused(to, refusal),
    }
}

fn ending(outcome: Outcome) -> &'static str {
    match outcome {
        Outcome::At(_) => "found",
        Outcome::Nothing => "none",
        Outcome::Spent => "spent",
    }
}

pub fn found(to: &mut Stdout, found: Result<FirstPoint, Refusal>) -> io::Result<()> {
    match found {
        Ok(found) => writeln!(to, "{}, {} tested", ending(found.outcome), found.tested),
        Err(refusal) => refused(to, refusal),
    }
}

fn word(verdict: Verdict) -> &'static str {
    match verdict {
        Verdict::Point => "point",
        Verdict::Dropped => "dropped",
        Verdict::Long => "long",
        Verdict::Wide => "wide",
    }
}

// A test for fractions: the answer, and the pivots made.
pub fn tested(to: &mut Stdout, test: Result<Option<Ended>, Refusal>) -> io::Result<()> {
    match test {
        Ok(Some(ended)) => writeln!(to, "{}, {} pivots", word(ended.verdict), ended.pivots),
        Ok(None) => say(to, b"no such set\n"),
        Err(refusal) => refused(to, refusal),
    }
}
