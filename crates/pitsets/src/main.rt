// The script program: reads a script from standard input in parts and writes what it prints to standard output.
// What a script means is decided in `script::step`; this program moves bytes.
#![tactic(auto)]

ghost use Rattle.std.specs.Prelude.{◌≡◌, true, false, ◌-◌, ◌≤◌, ◌<◌, length, take, IfOk, OnErr};
ghost use Rattle.model.specs.Limits.{set_bytes};
ghost use Rattle.session.specs.Turns.{memory};
ghost use Rattle.session.specs.Session.{Left};
ghost use Rattle.session.specs.declared.Next.TheVariants.{Reads, Ends};
ghost use Rattle.pitsets.specs.Moving.{unused, Lent, Refilled};

use model::limit;
use session::{Next, State};
use std::fmt::{Display, Formatter};
use std::io::{Read, Stdin, Stdout, Write};
use std::process::ExitCode;
use std::{fmt, io};

// What the system refused, and why.
#[derive(Drop)]
enum Failed {
    Read(io::Error),
    Write(io::Error),
}

impl Display for Failed {
    fn fmt<W: fmt::Write>(&self, f: &mut Formatter<W>) -> fmt::Result {
        match self {
            Failed::Read(e) => write!(f, "read: {e}"),
            Failed::Write(e) => write!(f, "write: {e}"),
        }
    }
}

fn zeros<const N: usize>() -> [u8; N]
    ensures { N ≡ length result }
{
    [0; N]
}

// What is read and not used, from..have, moved to the front.
fn forward(read: &mut [u8], from: usize, have: usize) -> usize
    requires { (from ≤ have) × (have ≤ length read.old) }
    ensures { (result ≡ have - from) × (take result read.new ≡ unused read.old from have) }
{
    let n = have - from;
    if from == 0 {
        return n;
    }
    read.copy_within(from..have, 0);
    n
}

// One read behind the first `have` bytes: how many came, none at the end of the input. Without room for a byte it would tell an end
// that is none.
fn more(input: &mut Stdin, read: &mut [u8], have: usize) -> io::Result<usize>
    requires { have < length read.old }
    ensures kept { take have read.new ≡ take have read.old }
    ensures within { IfOk result (λ k. k ≤ length read.old - have) }
{
    input.read(&mut read[have..])
}

// How much is read and not used, whether there is no more, and the turns that are left.
#[derive(Clone, Copy)]
struct Filled {
    have: usize,
    ended: bool,
    turns: u64,
}

// After an error what was not used stands at the front too.
fn refill(
    input: &mut Stdin,
    read: &mut [u8],
    from: usize,
    have: usize,
    turns: u64,
) -> Result<Filled, Failed>
    requires { (from ≤ have) × (have ≤ length read.old) × (have - from < length read.old) }
    ensures ok { IfOk result (λ f. Refilled read.old read.new from have turns f) }
    ensures err { OnErr result (take (have - from) read.new ≡ unused read.old from have) }
{
    let kept = forward(read, from, have);
    let k = more(input, read, kept).map_err(Failed::Read)?;
    Ok(Filled {
        have: kept + k,
        ended: k == 0,
        turns,
    })
}

fn asks(next: Next) -> bool
    ensures { (result ≡ true → next ≡ Reads) × (result ≡ false → ¬ (next ≡ Reads)) }
{
    matches!(next, Next::Reads)
}

fn ends(next: Next) -> bool
    ensures { result ≡ false → ¬ (next ≡ Ends) }
{
    matches!(next, Next::Ends | Next::Misused)
}

// Writes the n bytes of a turn; the turns that are left behind it: none after the last one.
fn show(output: &mut Stdout, text: &[u8], n: usize, next: Next, turns: u64) -> Result<u64, Failed>
    requires { (n ≤ length text.now) × (0 < turns) }
    ensures { IfOk result (λ r. (r < turns) × (0 < r → ¬ (next ≡ Ends))) }
{
    output.write_all(&text[..n]).map_err(Failed::Write)?;
    Ok(if ends(next) { 0 } else { turns - 1 })
}

// Turn after turn, from four empty sets; read[from..have] is read and not used. The bound on the turns lets it come to an end
// where the input does not; no run reaches it. What the memory is left as holds after an error too.
fn run(
    input: &mut Stdin,
    output: &mut Stdout,
    read: &mut [u8],
    sets: &mut [u8],
    lengths: &mut [usize],
    answer: &mut [u8],
    text: &mut [u8],
) -> Result<(), Failed>
    requires { Lent read.old sets.old lengths.old answer.old text.old }
    ensures { Left (length text.old) (memory sets.new lengths.new answer.new) }
{
    let mut state = State {
        axes: 0,
        listing: None,
    };
    let mut from = 0;
    let mut have = 0;
    let mut ended = false;
    let mut turns = u64::MAX;
    while 0 < turns {
        let t = script::step(state, &read[from..have], ended, sets, lengths, answer, text);
        let next = t.next;
        turns = show(output, text, t.text, next, turns)?;
        state = t.state;
        from += t.used;
        if asks(next) {
            let f = refill(input, read, from, have, turns)?;
            from = 0;
            have = f.have;
            ended = f.ended;
            turns = f.turns;
        }
    }
    Ok(())
}

fn main(rt: HostRuntime) -> ExitCode {
    let mut read = zeros::<69632>();
    let mut sets = zeros::<32000>();
    let mut lengths = [0usize; 4];
    let mut answer = zeros::<{ limit::SET_BYTES }>();
    let mut text = zeros::<512>();
    match run(
        &mut rt.stdin(),
        &mut rt.stdout(),
        &mut read,
        &mut sets,
        &mut lengths,
        &mut answer,
        &mut text,
    ) {
        Ok(()) => ExitCode::SUCCESS,
        Err(e) => {
            // where standard error fails too there is nobody to tell
            let _ = eprintln!(rt; "{e}");
            ExitCode::FAILURE
        }
    }
}
