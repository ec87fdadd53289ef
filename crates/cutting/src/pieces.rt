// One cut (document 01, "Cutting rules"): the kept candidates of a basic set and a cutter.
ghost use Rattle.std.specs.Prelude.{◌≡◌, ◌&&◌, ◌||◌, cond, ◌+◌, ◌≤◌, ◌<◌, length};
ghost use Rattle.model.specs.Values.{constraint_of};
ghost use Rattle.model.specs.Limits.{most_constraints};
ghost use Rattle.algebra.specs.Tighten as T;
ghost use Rattle.candidates.specs.Candidates.{Tables};
ghost use Rattle.cutting.specs.Cutting.{Spares, Marked, Pair, CutTightIs, Piece, PieceIs, BothIs};

use candidates::{Survivors, follow, kept, kept_alone, put, start};
use joining::{Joined, join, joining_rule, moved, tight_above, tight_below, void};
use model::{BasicSet, Constraint, limit};

// The pieces of a cut: `working` has all constraints that joined it, and step v of the first `count` stands for the piece whose last
// constraint is the tightened opposite of the working constraint v / 2, above it where v is odd and below it where v is even.
#[derive(Clone, Copy)]
pub struct CutSteps {
    pub working: BasicSet,
    pub steps: [u8; 96],
    pub count: usize,
}

fn either(k: Survivors) -> bool
    ensures { result ≡ (k.above || k.below) }
{
    k.above || k.below
}

fn step(at: usize, up: usize) -> u8
    requires { (at < most_constraints) × (up ≤ 1) }
    ensures { result ≡ at + at + up }
{
    (at + at + up) as u8
}

// The steps of the kept candidates of the constraint at place `at`, behind the first n; how many steps there are then.
fn mark(steps: &mut [u8], n: usize, at: usize, k: Survivors) -> usize
    requires { (at < most_constraints) × (n + 1 < length steps.old) }
    ensures { Marked n at k steps.old result steps.new }
{
    let m = n + usize::from(k.above);
    steps[n] = step(at, 1);
    steps[m] = step(at, 0);
    m + usize::from(k.below)
}

// How many of the cutter's constraints are done after constraint k: all, where it joined and no integer point meets it.
fn passed(k: usize, cons: usize, on: bool, r: Constraint) -> usize
    requires { k < cons }
    ensures { result ≡ cond (on && T.void (constraint_of r)) cons (k + 1) }
{
    if on && void(r) {
        return cons;
    }
    k + 1
}

// One cut of a tight basic set. Nothing: a join over 8 divisions or a candidate over 48 constraints (refusal 10).
pub fn cut(
    a: BasicSet,
    c: BasicSet,
    rows: &mut [[i64; 18]],
    place: &mut [usize],
    kinds: &mut [u8],
    past: &mut [[i64; 18]],
    spare: &mut [[i64; 18]],
) -> Option<CutSteps>
    requires { Pair a c × Tables rows.old place.old kinds.old × Spares past.old spare.old }
    ensures { CutTightIs a c result }
{
    let Joined {
        divisions,
        divs,
        places,
    } = join(a.divisions, a.divs, c.divisions, c.divs)?;
    let mut w = a;
    w.divisions = divisions;
    w.divs = divs;
    let mut steps = [0u8; 96];
    let mut count = 0;
    let mut cols = [0usize; limit::PIVOTS];
    let mut h = start(w, rows, place, kinds, past, &mut cols);
    let mut k = 0;
    while k < c.cons {
        let at = w.cons;
        if at == limit::CONSTRAINTS {
            return None;
        }
        let r = joining_rule(c.constraints[k], places, c.divs);
        let x = match kept(h, w.divs, r, rows, place, kinds, past, &cols, spare) {
            Some(x) => x,
            None => kept_alone(w, r, spare),
        };
        count = mark(&mut steps, count, at, x);
        let on = either(x);
        w.constraints[at] = r;
        w.cons = at + usize::from(on);
        k = passed(k, c.cons, on, r);
        h = follow(
            h,
            r,
            w.divs,
            on,
            c.cons - k,
            rows,
            place,
            kinds,
            past,
            &mut cols,
        );
    }
    Some(CutSteps {
        working: w,
        steps,
        count,
    })
}

// The piece of step v.
pub fn piece(w: BasicSet, v: u8) -> BasicSet
    requires { Piece w v }
    ensures { PieceIs w v result }
{
    let at = (v / 2) as usize;
    let r = w.constraints[at];
    if v % 2 == 1 {
        return put(w, at, tight_above(r));
    }
    put(w, at, tight_below(r))
}

// Two basic sets in one: the constraints of a, then those of c, moved. Nothing: over 8 divisions or 48 constraints (refusal 10).
pub fn both(a: BasicSet, c: BasicSet) -> Option<BasicSet>
    requires { Pair a c }
    ensures { BothIs a c result }
{
    let Joined {
        divisions,
        divs,
        places,
    } = join(a.divisions, a.divs, c.divisions, c.divs)?;
    if limit::CONSTRAINTS < a.cons + c.cons {
        return None;
    }
    let mut set = a;
    for k in 0..c.cons {
        set.constraints[a.cons + k] = moved(c.constraints[k], places, c.divs);
    }
    set.divisions = divisions;
    set.divs = divs;
    set.cons = a.cons + c.cons;
    Some(set)
}
