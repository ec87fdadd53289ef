// The script's sets in lent memory: four tables of 8,000 bytes one behind the other, and a table for results.
ghost use Rattle.std.specs.Prelude.{◌≡◌, ◌+◌, ◌*◌, ◌≤◌, ◌<◌, length, get_or, set, true};
ghost use Rattle.model.specs.Limits.{last_set};
ghost use Rattle.algebra.specs.Result.{Result};
ghost use Rattle.session.specs.Script.{room, load_bytes};
ghost use Rattle.listing.specs.Written.{put};
ghost use Rattle.session.specs.Turns.{Fitted, table_at, state_in, answer_of, is_assignment};
ghost use Rattle.commands.specs.Promises.{Operands};
ghost use Rattle.results.specs.Outcome.{outcome_is};

use listing::word;
use model::{Refusal, limit};
use operations::{complement, difference, intersection, union};
use records::clear;
use results::refuse;

pub fn byte(s: &[u8], i: usize) -> usize
    requires { i < length s.now }
    ensures is { result ≡ get_or s.now i 0 }
    ensures small { result < 256 }
{
    s[i] as usize
}

// The bytes of set m.
pub fn table<'a>(tables: &'a [u8], lengths: &[usize], m: usize) -> &'a [u8]
    requires { Fitted tables.now lengths.now × (m ≤ last_set) }
    ensures { result.now ≡ table_at tables.now lengths.now m }
{
    let at = limit::SET_BYTES * m;
    let end = at + lengths[m];
    &tables[at..end]
}

// A loaded set: its own refusals, then 11.
pub fn load(n: usize, set: &[u8], res: &mut [u8]) -> Result<usize, Refusal>
    requires { length res.old ≡ room }
    ensures { Result room (load_bytes n set.now) (outcome_is result) res.new }
{
    if let Err(r) = codec::check(n, set) {
        return refuse(r, res);
    }
    if limit::SET_BYTES < set.len() {
        return refuse(Refusal::TableFull, res);
    }
    let end = word(res, 0, set);
    clear(res, end);
    Ok(end)
}

// The answer of a command that assigns a set, in the table for results.
pub fn answer(
    b: u8,
    n: usize,
    s: &[u8],
    tables: &[u8],
    lengths: &[usize],
    res: &mut [u8],
) -> Result<usize, Refusal>
    requires { Fitted tables.now lengths.now × Operands b s.now × (is_assignment b ≡ true) × (length res.old ≡ room) }
    ensures { Result room (answer_of (state_in n tables.now lengths.now) b s.now) (outcome_is result) res.new }
{
    if b == 0x40 {
        return load(n, codec::tail(s, 3), res);
    }
    let first = table(tables, lengths, byte(s, 1));
    if b == 0x44 {
        return complement(n, first, res);
    }
    let second = table(tables, lengths, byte(s, 2));
    match b {
        0x41 => union(n, first, second, res),
        0x42 => intersection(n, first, second, res),
        _ => difference(n, first, second, res),
    }
}

// The whole table for results to table m, in which the set has l bytes.
pub fn keep(tables: &mut [u8], lengths: &mut [usize], m: usize, res: &[u8], l: usize)
    requires { (length tables.old ≡ 32000) × (length lengths.old ≡ last_set + 1) × (m ≤ last_set) × (length res.now ≡ room) }
    ensures { (tables.new ≡ put (room * m) res.now tables.old) × (lengths.new ≡ set lengths.old m l) }
{
    word(tables, limit::SET_BYTES * m, res);
    lengths[m] = l;
}
