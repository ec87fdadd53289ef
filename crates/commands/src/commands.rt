// One whole command of a script: what it prints, and what it changes.
ghost use Rattle.std.specs.Prelude.{◌≡◌, true, false, [], ℕ, ◌+◌, ◌≤◌, ◌<◌, leb, eqb, length, take, drop, get_or, None};
ghost use Rattle.model.specs.Lists.{all};
ghost use Rattle.model.specs.Limits.{most_axes, last_set};
ghost use Rattle.model.specs.Refused.{number_of};
ghost use Rattle.codec.specs.Bytes.{decode, axes_fit, value_of};
ghost use Rattle.query.specs.Member.{member_bytes};
ghost use Rattle.enumeration.specs.Search.{search_bytes};
ghost use Rattle.session.specs.Script as S;
ghost use Rattle.session.specs.Script.{room, set_numbers, coordinates, refused_line, member_line, search_line, execute};
ghost use Rattle.listing.specs.Written.{Writes};
ghost use Rattle.session.specs.Turns.{Fitted, state_in, answer_of, keeps, is_assignment, performs, effect_of, listed, listing_of, shown, memory_of};
ghost use Rattle.commands.specs.Promises.{Operands, Single, Performable, Usable, CommandIs, tells, done_line, first_line, Told, Holds, saying};
ghost use Rattle.commands.specs.Found.{found_of};

use crate::memory::{answer, byte, keep, table};
use listing::{at_line, counted_line, header, word};
use model::{Refusal, limit};
use search::{FirstPoint, first_point};
use session::Cursor;

#[derive(Clone, Copy)]
pub struct CommandDone {
    pub text: usize,
    pub axes: usize,
    pub goes: bool,
    pub listing: Option<Cursor>,
}

pub fn refused_line(out: &mut [u8], r: Refusal) -> usize
    requires { 512 ≤ length out.old }
    ensures { Writes 30 (refused_line (number_of r)) out.old 0 result out.new }
{
    counted_line(out, b"refused", u64::from(r.number()))
}

fn says(text: usize, axes: usize, goes: bool) -> CommandDone
    ensures { result ≡ saying text axes goes }
{
    CommandDone {
        text,
        axes,
        goes,
        listing: None,
    }
}

// `10`: `axes` and n, or 1, which ends the script.
fn open(axes: usize, n: usize, out: &mut [u8]) -> CommandDone
    requires { 512 ≤ length out.old }
    ensures { Told (S.opened (state_in axes [] []) n).text (S.opened (state_in axes [] []) n).state.axes (axes_fit n) None result out.old out.new }
{
    if n == 0 || limit::AXES < n {
        return says(refused_line(out, Refusal::BadAxes), axes, false);
    }
    says(counted_line(out, b"axes", n as u64), n, true)
}

// `45`: the first line of the listing of set m, whose bytes are s.
fn list(axes: usize, m: usize, s: &[u8], out: &mut [u8]) -> CommandDone
    requires { 512 ≤ length out.old }
    ensures { Told (tells (first_line m) (decode axes s.now)) axes true (listing_of (listed m (decode axes s.now))) result out.old out.new }
{
    if let Err(r) = codec::check(axes, s) {
        return says(refused_line(out, r), axes, true);
    }
    let text = header(out, m as u64, codec::count(s) as u64);
    CommandDone {
        text,
        axes,
        goes: true,
        listing: Some(Cursor {
            set: m,
            place: 0,
            basics: 0,
            divisions: 0,
        }),
    }
}

// Eight coordinates from a place on.
fn point(s: &[u8], p: usize) -> [i32; limit::AXES]
    requires { p + 32 ≤ length s.now }
    ensures { result ≡ S.coordinates most_axes (drop p s.now) }
{
    [
        integers::i32_at(s, p),
        integers::i32_at(s, p + 4),
        integers::i32_at(s, p + 8),
        integers::i32_at(s, p + 12),
        integers::i32_at(s, p + 16),
        integers::i32_at(s, p + 20),
        integers::i32_at(s, p + 24),
        integers::i32_at(s, p + 28),
    ]
}

// `46`, with the operands s.
fn member(axes: usize, set: &[u8], s: &[u8], out: &mut [u8]) -> usize
    requires { (33 ≤ length s.now) × (512 ≤ length out.old) }
    ensures { Writes 30 (tells member_line (member_bytes axes set.now (S.coordinates most_axes (drop 1 s.now)))) out.old 0 result out.new }
{
    match query::member(axes, set, point(s, 1)) {
        Ok(true) => word(out, 0, b"in\n"),
        Ok(false) => word(out, 0, b"out\n"),
        Err(r) => refused_line(out, r),
    }
}

fn found_line(n: usize, f: FirstPoint, out: &mut [u8]) -> usize
    requires { (n ≤ most_axes) × (512 ≤ length out.old) }
    ensures { Writes 512 (search_line (found_of n f)) out.old 0 result out.new }
{
    let tested = u64::from(f.tested);
    match f.outcome {
        search::Outcome::At(point) => at_line(out, n, point, tested),
        search::Outcome::Nothing => counted_line(out, b"none", tested),
        search::Outcome::Spent => counted_line(out, b"spent", tested),
    }
}

// `47`, with the operands s.
fn search(axes: usize, set: &[u8], s: &[u8], out: &mut [u8]) -> usize
    requires { (69 ≤ length s.now) × (axes ≤ most_axes) × (512 ≤ length out.old) }
    ensures { Writes 512 (tells search_line (search_bytes axes set.now (S.coordinates most_axes (drop 5 s.now)) (S.coordinates most_axes (drop 37 s.now)) (value_of (take 4 (drop 1 s.now))))) out.old 0 result out.new }
{
    let most = integers::u32_at(s, 1) as u32;
    match first_point(axes, set, point(s, 5), point(s, 37), most) {
        Ok(f) => found_line(axes, f, out),
        Err(r) => refused_line(out, r),
    }
}

// `40` to `44`, with the operands s.
fn assign(
    axes: usize,
    b: u8,
    s: &[u8],
    tables: &mut [u8],
    lengths: &mut [usize],
    res: &mut [u8],
    out: &mut [u8],
) -> usize
    requires { Fitted tables.old lengths.old × Operands b s.now × (is_assignment b ≡ true) × (length res.old ≡ room) × (512 ≤ length out.old) }
    ensures told { Writes 30 (tells done_line (answer_of (state_in axes tables.old lengths.old) b s.now)) out.old 0 result out.new }
    ensures kept { Holds (keeps (record { tables = tables.old; lengths = lengths.old; result = res.old }) (get_or s.now 0 0) (answer_of (state_in axes tables.old lengths.old) b s.now)) tables.new lengths.new res.new }
{
    match answer(b, axes, s, tables, lengths, res) {
        Err(r) => refused_line(out, r),
        Ok(l) => {
            keep(tables, lengths, byte(s, 0), res, l);
            word(out, 0, b"done\n")
        }
    }
}

fn set_numbers(b: u8) -> usize
    ensures { result ≡ set_numbers b }
{
    match b {
        0x41..=0x43 => 3,
        0x44 => 2,
        _ => 1,
    }
}

// Whether the first k operands are set numbers.
fn numbers_fit(s: &[u8], k: usize) -> bool
    requires { k ≤ length s.now }
    ensures { result ≡ all (λ (m : ℕ). leb m last_set) (take k s.now) }
{
    s[..k].iter().all(|m| *m <= limit::LAST_SET)
}

// A command b that prints one line, with the operands s.
fn print(
    axes: usize,
    b: u8,
    s: &[u8],
    tables: &mut [u8],
    lengths: &mut [usize],
    res: &mut [u8],
    out: &mut [u8],
) -> usize
    requires { Performable axes b s.now tables.old lengths.old res.old out.old × (eqb b 0x45 ≡ false) }
    ensures told { Writes 512 (S.perform (state_in axes tables.old lengths.old) b s.now).text out.old 0 result out.new }
    ensures kept { Holds (memory_of (record { tables = tables.old; lengths = lengths.old; result = res.old }) (performs (state_in axes tables.old lengths.old) b s.now)) tables.new lengths.new res.new }
{
    match b {
        0x46 => member(axes, table(tables, lengths, byte(s, 0)), s, out),
        0x47 => search(axes, table(tables, lengths, byte(s, 0)), s, out),
        _ => assign(axes, b, s, tables, lengths, res, out),
    }
}

// A command b whose set numbers are good, with the operands s.
fn perform(
    axes: usize,
    b: u8,
    s: &[u8],
    tables: &mut [u8],
    lengths: &mut [usize],
    res: &mut [u8],
    out: &mut [u8],
) -> CommandDone
    requires { Performable axes b s.now tables.old lengths.old res.old out.old }
    ensures told { Told (shown (S.perform (state_in axes tables.old lengths.old) b s.now).text (performs (state_in axes tables.old lengths.old) b s.now)) axes true (listing_of (performs (state_in axes tables.old lengths.old) b s.now)) result out.old out.new }
    ensures kept { Holds (memory_of (record { tables = tables.old; lengths = lengths.old; result = res.old }) (performs (state_in axes tables.old lengths.old) b s.now)) tables.new lengths.new res.new }
{
    if b == 0x45 {
        let m = byte(s, 0);
        let set = table(tables, lengths, m);
        return list(axes, m, set, out);
    }
    says(print(axes, b, s, tables, lengths, res, out), axes, true)
}

// One whole command c.
pub fn command(
    axes: usize,
    c: &[u8],
    tables: &mut [u8],
    lengths: &mut [usize],
    res: &mut [u8],
    out: &mut [u8],
) -> CommandDone
    requires { Single axes c.now × Usable axes tables.old lengths.old res.old out.old }
    ensures told { CommandIs (execute (state_in axes tables.old lengths.old) c.now) (effect_of (state_in axes tables.old lengths.old) c.now) result out.old out.new }
    ensures kept { Holds (memory_of (record { tables = tables.old; lengths = lengths.old; result = res.old }) (effect_of (state_in axes tables.old lengths.old) c.now)) tables.new lengths.new res.new }
{
    let b = c[0];
    let s = codec::tail(c, 1);
    if b == 0x00 {
        return says(word(out, 0, b"end\n"), axes, false);
    }
    if b == 0x10 {
        return open(axes, byte(s, 0), out);
    }
    if !numbers_fit(s, set_numbers(b)) {
        return says(refused_line(out, Refusal::NoSuchSet), axes, true);
    }
    perform(axes, b, s, tables, lengths, res, out)
}
