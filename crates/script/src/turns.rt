// The script program, turn by turn, in lent memory.
ghost use Rattle.std.specs.Prelude.{◌≡◌, true, false, ℕ, ◌+◌, ◌≤◌, ◌<◌, leb, get_or, length, drop, [], None};
ghost use Rattle.model.specs.Lists.{all};
ghost use Rattle.session.specs.Script.{room};
ghost use Rattle.listing.specs.Written.{Writes};
ghost use Rattle.session.specs.Turns as D;
ghost use Rattle.session.specs.Turns.{Fitted, table_at, line_of, front_turn, front_of, turn_of};
ghost use Rattle.commands.specs.Promises.{Usable};
ghost use Rattle.script.specs.Promises.{silent_turn, after_turn, CursorIn, Says, TurnIs, Shows};
ghost use Rattle.model.specs.Limits.{most_axes, most_divisions};
ghost use Rattle.session.specs.declared.Next.TheVariants.{Goes};

use crate::fronts::next;
use commands::{CommandDone, command, refused_line, table};
use listing::{constraint_line, counted_line, division_line};
use model::limit;
use session::{Cursor, Next, State};

// What a turn did: the length of its text, the bytes of input that it used, the state after it, and what comes next.
#[derive(Clone, Copy)]
pub struct Turn {
    pub text: usize,
    pub used: usize,
    pub state: State,
    pub next: Next,
}

fn silent(state: State, next: Next) -> Turn
    ensures { result ≡ silent_turn state next }
{
    Turn {
        text: 0,
        used: 0,
        state,
        next,
    }
}

// The line of the command of a listing at the cursor's place in s.
fn line(axes: usize, c: Cursor, s: &[u8], out: &mut [u8]) -> usize
    requires { Shows axes c s.now out.old }
    ensures { Writes 512 (line_of axes c (get_or s.now c.place 0) (drop (c.place + 1) s.now)) out.old 0 result out.new }
{
    let b = codec::code(s, c.place);
    if codec::is_opening(b) {
        return counted_line(out, b"basic", (c.basics + 1) as u64);
    }
    let t = codec::body(s, c.place);
    if codec::is_division(b) {
        return division_line(out, axes, codec::head(s, c.place), t);
    }
    constraint_line(out, axes, c.divisions, b, t)
}

// The cursor after that command.
fn past(c: Cursor, b: u8) -> Cursor
    requires { (c.place ≤ room) × (c.basics ≤ room) × (c.divisions ≤ most_divisions) }
    ensures { result ≡ D.past c b }
{
    let place = c.place + codec::width(b);
    if codec::is_opening(b) {
        return Cursor {
            place,
            basics: c.basics + 1,
            divisions: 0,
            ..c
        };
    }
    if codec::is_division(b) {
        return Cursor {
            place,
            divisions: c.divisions + 1,
            ..c
        };
    }
    Cursor { place, ..c }
}

fn over(axes: usize) -> Turn
    ensures { result ≡ silent_turn (D.state_at axes None) Goes }
{
    let state = State {
        axes,
        listing: None,
    };
    silent(state, Next::Goes)
}

// One line of a listing.
fn listing_turn(axes: usize, c: Cursor, tables: &[u8], lengths: &[usize], out: &mut [u8]) -> Turn
    requires { Fitted tables.now lengths.now × CursorIn c lengths.now × (axes ≤ most_axes) × (512 ≤ length out.old) }
    ensures { Says (D.line_turn axes (D.memory [] [] []) c (drop c.place (table_at tables.now lengths.now c.set))) result out.old out.new }
{
    let s = table(tables, lengths, c.set);
    if s.len() <= c.place {
        return over(axes);
    }
    let b = s[c.place];
    let w = codec::width(b);
    if w == 0 || s.len() - c.place < w {
        return over(axes);
    }
    let text = line(axes, c, s, out);
    let state = State {
        axes,
        listing: Some(past(c, b)),
    };
    Turn {
        text,
        used: 0,
        state,
        next: Next::Goes,
    }
}

fn after(d: CommandDone, used: usize) -> Turn
    ensures { result ≡ after_turn d used }
{
    Turn {
        text: d.text,
        used,
        state: State {
            axes: d.axes,
            listing: d.listing,
        },
        next: if d.goes { Next::Goes } else { Next::Ends },
    }
}

// The command at the front of the input.
fn front_turn(
    state: State,
    input: &[u8],
    ended: bool,
    tables: &mut [u8],
    lengths: &mut [usize],
    res: &mut [u8],
    out: &mut [u8],
) -> Turn
    requires { Usable state.axes tables.old lengths.old res.old out.old }
    ensures { TurnIs (front_turn state (D.memory tables.old lengths.old res.old) input.now (front_of state.axes ended input.now)) result out.old out.new tables.new lengths.new res.new }
{
    match next(state.axes, input, ended) {
        Ok(None) => silent(state, Next::Reads),
        Ok(Some(w)) => after(
            command(state.axes, &input[..w], tables, lengths, res, out),
            w,
        ),
        Err(r) => Turn {
            text: refused_line(out, r),
            used: 0,
            state,
            next: Next::Ends,
        },
    }
}

// Whether each length is within its table.
fn lengths_fit(lengths: &[usize]) -> bool
    ensures { result ≡ all (λ (l : ℕ). leb l room) lengths.now }
{
    lengths.iter().all(|l| *l <= limit::SET_BYTES)
}

fn cursor_fits(listing: Option<Cursor>, lengths: &[usize]) -> bool
    requires { length lengths.now ≡ 4 }
    ensures { result ≡ D.cursor_fits lengths.now listing }
{
    match listing {
        None => true,
        Some(c) => {
            c.set <= 3
                && c.place <= lengths[c.set]
                && c.basics <= limit::SET_BYTES
                && c.divisions <= limit::DIVISIONS
        }
    }
}

#[tactic(auto, unfolding(session::specs::Turns::usable))]
fn usable(state: State, tables: &[u8], lengths: &[usize], res: &[u8], width: usize) -> bool
    ensures { result ≡ D.usable state (D.memory tables.now lengths.now res.now) width }
{
    if tables.len() != 32000
        || lengths.len() != 4
        || !lengths_fit(lengths)
        || res.len() != limit::SET_BYTES
        || width < 512
        || limit::AXES < state.axes
    {
        return false;
    }
    cursor_fits(state.listing, lengths)
}

// One turn on the input that has been read and not used; `ended`: there is no more. At most one line of text goes to `out`.
pub fn step(
    state: State,
    input: &[u8],
    ended: bool,
    tables: &mut [u8],
    lengths: &mut [usize],
    res: &mut [u8],
    out: &mut [u8],
) -> Turn
    ensures { TurnIs (turn_of state (D.memory tables.old lengths.old res.old) (length out.old) ended input.now) result out.old out.new tables.new lengths.new res.new }
{
    if !usable(state, tables, lengths, res, out.len()) {
        return silent(state, Next::Misused);
    }
    match state.listing {
        Some(c) => listing_turn(state.axes, c, tables, lengths, out),
        None => front_turn(state, input, ended, tables, lengths, res, out),
    }
}
