// A rule more: its row over the table reached, and the test goes on.
ghost use Rattle.std.specs.Prelude.{◌≡◌, [], ◌≤◌, ◌<◌, T, length};
ghost use Rattle.model.specs.Values.{constraint_of};
ghost use Rattle.wide_tableau.specs.Cells.{cells};
ghost use Rattle.model.specs.Limits.{most_constraints};
ghost use Rattle.memory.specs.Memory.{memory, head_at, Fits};
ghost use Rattle.memory.specs.Sound.{sound as sound_of};
ghost use Rattle.rules.specs.Rules.{rule_of};
ghost use Rattle.states.specs.Calls.{word_is, said_is, stepped, says, goes_on, grown_in, joined_in, add_step};
ghost use Rattle.states.specs.Parts.{Open, Joins, Grew};

use crate::Said;
use crate::marking::said_of;
use crate::opening::word_of;
use memory::slots::fits;
use memory::sound::sound;
use model::{Constraint, Refusal, limit};
use rules::{Rule, check_rule, constraint_of};

// The test goes on with the new row, variable v, of that kind: the word.
fn go_with(
    row: [u64; 36],
    kind: u8,
    k: usize,
    m: usize,
    rows: &mut [[u64; 36]],
    place: &mut [usize],
    kinds: &mut [u8],
) -> usize
    requires { Open k m rows.old place.old kinds.old × Joins k row }
    ensures { Grew k m kind (goes_on k m kind (cells row) (memory rows.old place.old kinds.old [])) result rows.old rows.new place.old place.new kinds.old kinds.new }
{
    let v = limit::AXES + k + m;
    rows[m] = row;
    place[v] = m;
    kinds[v] = kind;
    let e = carrying::going::go_on(
        &mut rows[..m + 1],
        k + 10,
        &mut place[..v + 1],
        &kinds[..v + 1],
        limit::PIVOTS,
    );
    let ended = e.ended;
    let x = ended.verdict;
    word_of(x)
}

// A state that says point, with the rule's row: wide where that cannot be written down.
fn grow(
    c: Constraint,
    k: usize,
    m: usize,
    rows: &mut [[u64; 36]],
    place: &mut [usize],
    kinds: &mut [u8],
    heads: &mut [usize],
)
    requires { Open k m rows.old place.old kinds.old × (5 ≤ length heads.old) }
    ensures { memory rows.new place.new kinds.new heads.new ≡ grown_in k m (constraint_of c) (memory rows.old place.old kinds.old heads.old) }
{
    let mut row = [0u64; 36];
    let names = limit::AXES + k + m;
    if !drafting::settle::draft(c, &rows[..m], &place[..names], k, &mut row) {
        heads[4] = 3;
        return;
    }
    let kind = simplex::fill::kind_of(c.equality);
    heads[4] = go_with(row, kind, k, m, rows, place, kinds);
    heads[3] = m + 1;
}

// The rule counts, and where the state says point it joins.
fn join(
    c: Constraint,
    rows: &mut [[u64; 36]],
    place: &mut [usize],
    kinds: &mut [u8],
    heads: &mut [usize],
) -> Said
    requires { Fits (memory rows.old place.old kinds.old heads.old) × T (sound_of (memory rows.old place.old kinds.old heads.old)) × (head_at 0 2 (memory rows.old place.old kinds.old heads.old) < most_constraints) }
    ensures { stepped (word_is result) (memory rows.new place.new kinds.new heads.new) ≡ says (joined_in (constraint_of c) (memory rows.old place.old kinds.old heads.old)) }
{
    let k = heads[1];
    let m = heads[3];
    let w = heads[4];
    heads[2] = heads[2] + 1;
    if w != 1 {
        return said_of(w);
    }
    grow(c, k, m, rows, place, kinds, heads);
    let now = heads[4];
    said_of(now)
}

pub fn add(
    rule: Rule,
    rows: &mut [[u64; 36]],
    place: &mut [usize],
    kinds: &mut [u8],
    heads: &mut [usize],
) -> Result<Said, Refusal>
    ensures { stepped (said_is result) (memory rows.new place.new kinds.new heads.new) ≡ add_step (rule_of rule) (memory rows.old place.old kinds.old heads.old) }
{
    if !fits(rows, place, kinds, heads) {
        return Ok(Said::Misused);
    }
    if !sound(rows, place, kinds, heads) {
        return Ok(Said::Misused);
    }
    check_rule(heads[0], heads[1], heads[2], rule)?;
    let c = constraint_of(rule);
    Ok(join(c, rows, place, kinds, heads))
}
