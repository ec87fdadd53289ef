// The intersection: each basic set of the first with each of the second.
ghost use Rattle.std.specs.Prelude.{true, length};
ghost use Rattle.model.specs.Values.{basic_set_of};
ghost use Rattle.codec.specs.Places.{set_from};
ghost use Rattle.algebra.specs.Cut as C;
ghost use Rattle.algebra.specs.Cut.{both_fits, intersection, intersection_fits};
ghost use Rattle.records.specs.Sound.{Sound};
ghost use Rattle.candidates.specs.Candidates.{Tables};
ghost use Rattle.cutting.specs.Cutting.{Pair};
ghost use Rattle.results.specs.Results.{Ready, Emits, Made};
ghost use Rattle.subtraction.specs.Subtraction.{Sets, Level};
ghost use Rattle.operations.specs.Operations.{tested, admitted, meeting, meetings, meetings_fit, first_meetings, first_meetings_fit};

use candidates::keeps;
use cutting::both;
use joining::{any_divisible, tight_set};
use model::BasicSet;
use records::decode_basic;
use results::{Done, emit};

// m behind the basic sets of the result, where the test for fractions keeps it.
fn emit_kept(
    m: BasicSet,
    out: &mut [u8],
    s: Done,
    rows: &mut [[i64; 18]],
    place: &mut [usize],
    kinds: &mut [u8],
) -> Done
    requires { Sound m × Ready s × Tables rows.old place.old kinds.old }
    ensures { Emits (tested (basic_set_of m)) true out.old s result out.new }
{
    if keeps(m, rows, place, kinds) {
        return emit(m, out, s);
    }
    s
}

// w once its constraints are tightened, where none is void.
fn admit_divided(
    w: BasicSet,
    out: &mut [u8],
    s: Done,
    rows: &mut [[i64; 18]],
    place: &mut [usize],
    kinds: &mut [u8],
) -> Done
    requires { Sound w × Ready s × Tables rows.old place.old kinds.old }
    ensures { Emits (admitted (basic_set_of w)) true out.old s result out.new }
{
    match tight_set(w) {
        Some(m) => emit_kept(m, out, s, rows, place, kinds),
        None => s,
    }
}

// p and v in one: tightened, where none of its constraints is void and the test for fractions keeps it. Most are tight already.
fn meet(
    p: BasicSet,
    v: BasicSet,
    out: &mut [u8],
    s: Done,
    rows: &mut [[i64; 18]],
    place: &mut [usize],
    kinds: &mut [u8],
) -> Done
    requires { Pair p v × Ready s × Tables rows.old place.old kinds.old }
    ensures { Emits (meeting (basic_set_of p) (basic_set_of v)) (both_fits C.keeps (basic_set_of p) (basic_set_of v)) out.old s result out.new }
{
    let w = match both(p, v) {
        Some(w) => w,
        None => return Done { fits: false, ..s },
    };
    if any_divisible(w) {
        return admit_divided(w, out, s, rows, place, kinds);
    }
    emit_kept(w, out, s, rows, place, kinds)
}

// p with each basic set of b.
fn meet_all(
    p: BasicSet,
    b: &[u8],
    out: &mut [u8],
    s: Done,
    rows: &mut [[i64; 18]],
    place: &mut [usize],
    kinds: &mut [u8],
) -> Done
    requires { Level (length (set_from b.now 0)) p b.now 0 × Ready s × Tables rows.old place.old kinds.old }
    ensures { Emits (meetings (set_from b.now 0) (basic_set_of p)) (meetings_fit (set_from b.now 0) (basic_set_of p)) out.old s result out.new }
{
    let mut t = s;
    let mut pos = 0;
    while pos < b.len() {
        let v = decode_basic(b, pos + 1);
        t = meet(p, v, out, t, rows, place, kinds);
        let on = t.fits;
        if !on {
            return t;
        }
        pos = codec::end_of(b, pos + 1);
    }
    t
}

// p once its constraints are tightened, with each basic set of b; nothing where one of them is void.
fn meet_divided(
    p: BasicSet,
    b: &[u8],
    out: &mut [u8],
    s: Done,
    rows: &mut [[i64; 18]],
    place: &mut [usize],
    kinds: &mut [u8],
) -> Done
    requires { Level (length (set_from b.now 0)) p b.now 0 × Ready s × Tables rows.old place.old kinds.old }
    ensures { Emits (first_meetings (set_from b.now 0) (basic_set_of p)) (first_meetings_fit (set_from b.now 0) (basic_set_of p)) out.old s result out.new }
{
    match tight_set(p) {
        Some(q) => meet_all(q, b, out, s, rows, place, kinds),
        None => s,
    }
}

// A basic set of the first set with each basic set of b.
fn meet_first(
    p: BasicSet,
    b: &[u8],
    out: &mut [u8],
    s: Done,
    rows: &mut [[i64; 18]],
    place: &mut [usize],
    kinds: &mut [u8],
) -> Done
    requires { Level (length (set_from b.now 0)) p b.now 0 × Ready s × Tables rows.old place.old kinds.old }
    ensures { Emits (first_meetings (set_from b.now 0) (basic_set_of p)) (first_meetings_fit (set_from b.now 0) (basic_set_of p)) out.old s result out.new }
{
    if any_divisible(p) {
        return meet_divided(p, b, out, s, rows, place, kinds);
    }
    meet_all(p, b, out, s, rows, place, kinds)
}

pub fn intersect(a: &[u8], b: &[u8], out: &mut [u8]) -> Done
    requires { Sets a.now b.now }
    ensures { Made (intersection_fits C.keeps (set_from a.now 0) (set_from b.now 0)) (intersection C.keeps (set_from a.now 0) (set_from b.now 0)) out.old result out.new }
{
    let mut rows = [[0i64; 18]; 64];
    let mut place = [0usize; 80];
    let mut kinds = [0u8; 80];
    let mut t = Done {
        at: 0,
        count: 0,
        fits: true,
    };
    let mut pos = 0;
    while pos < a.len() {
        let p = decode_basic(a, pos + 1);
        t = meet_first(p, b, out, t, &mut rows, &mut place, &mut kinds);
        let on = t.fits;
        if !on {
            return t;
        }
        pos = codec::end_of(a, pos + 1);
    }
    t
}
