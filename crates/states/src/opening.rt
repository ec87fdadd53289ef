// A start: the tableau of the divisions' bounds, tested, without marks.
ghost use Rattle.std.specs.Prelude.{◌≡◌, [], ◌∷◌, ◌++◌, map, ◌*◌, ◌≤◌, length, take, drop};
ghost use Rattle.model.specs.Values.{division_of};
ghost use Rattle.model.specs.Limits.{most_divisions};
ghost use Rattle.memory.specs.Memory.{memory, Fits};
ghost use Rattle.rules.specs.Divisions.{divisions_in, Listed};
ghost use Rattle.states.specs.Calls.{word_is, said_is, stepped, word_number, first_kinds, start_end, opens, start_step};
ghost use Rattle.states.specs.Parts.{Room, Begun, Ran};

use crate::Said;
use crate::marking::said_of;
use memory::ranks::forget_after;
use memory::slots::fits;
use model::{Division, Refusal, limit};
use rules::{check_start, divisions_of};
use simplex::Verdict;

// The number that stands for a word.
pub fn word_of(v: Verdict) -> usize
    ensures { result ≡ word_number v }
{
    match v {
        Verdict::Point => 1,
        Verdict::Dropped => 2,
        Verdict::Wide => 3,
        Verdict::Long => 4,
    }
}

// The first table of the divisions' bounds.
fn lay(
    ds: [Division; limit::DIVISIONS],
    k: usize,
    t: &mut [[u64; 36]],
    place: &mut [usize],
    kinds: &mut [u8],
)
    requires { Room k ds t.old place.old kinds.old }
    ensures { Begun k (map division_of (take k ds)) t.new place.new kinds.new }
{
    let m = 2 * k;
    let mut first = [[0i64; 18]; 2 * limit::DIVISIONS];
    simplex::fill::fill_bounds(ds, k, &mut first);
    carrying::carry::carry(&first[..m], t);
    simplex::fill::name_variables(k, limit::AXES + k + m, place, kinds);
}

// So, and tested: the word.
fn tested(
    ds: [Division; limit::DIVISIONS],
    k: usize,
    t: &mut [[u64; 36]],
    place: &mut [usize],
    kinds: &mut [u8],
) -> usize
    requires { Room k ds t.old place.old kinds.old }
    ensures { Ran (start_end k (map division_of (take k ds))) result t.new place.new × (kinds.new ≡ first_kinds k) }
{
    lay(ds, k, t, place, kinds);
    let e = carrying::going::go_on(t, k + 10, place, kinds, limit::PIVOTS);
    let ended = e.ended;
    let v = ended.verdict;
    word_of(v)
}

// The state's head.
fn write_head(heads: &mut [usize], n: usize, k: usize, w: usize)
    requires { (5 ≤ length heads.old) × (k ≤ most_divisions) }
    ensures { heads.new ≡ (n ∷ k ∷ 0 ∷ (2 * k) ∷ w ∷ []) ++ drop 5 heads.old }
{
    heads[0] = n;
    heads[1] = k;
    heads[2] = 0;
    heads[3] = 2 * k;
    heads[4] = w;
}

// A state of n axes and these divisions, none of which is refused.
fn set_up(
    n: usize,
    divisions: &[i32],
    k: usize,
    rows: &mut [[u64; 36]],
    place: &mut [usize],
    kinds: &mut [u8],
    heads: &mut [usize],
) -> Said
    requires { Fits (memory rows.old place.old kinds.old heads.old) × Listed k divisions.now }
    ensures { stepped (word_is result) (memory rows.new place.new kinds.new heads.new) ≡ opens n k (start_end k (divisions_in k divisions.now)) (memory rows.old place.old kinds.old heads.old) }
{
    let m = 2 * k;
    let names = limit::AXES + k + m;
    let ds = divisions_of(divisions, k);
    let w = tested(
        ds,
        k,
        &mut rows[..m],
        &mut place[..names],
        &mut kinds[..names],
    );
    write_head(heads, n, k, w);
    forget_after(heads, 0);
    said_of(w)
}

pub fn start(
    n: usize,
    divisions: &[i32],
    rows: &mut [[u64; 36]],
    place: &mut [usize],
    kinds: &mut [u8],
    heads: &mut [usize],
) -> Result<Said, Refusal>
    ensures { stepped (said_is result) (memory rows.new place.new kinds.new heads.new) ≡ start_step n divisions.now (memory rows.old place.old kinds.old heads.old) }
{
    if !fits(rows, place, kinds, heads) {
        return Ok(Said::Misused);
    }
    if divisions.len() % 10 != 0 {
        return Ok(Said::Misused);
    }
    let k = divisions.len() / 10;
    check_start(n, divisions, k)?;
    Ok(set_up(n, divisions, k, rows, place, kinds, heads))
}
