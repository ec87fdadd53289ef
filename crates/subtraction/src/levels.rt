// The difference: recursion over the cutters left; each level hands each of its pieces to the next at once.
ghost use Rattle.std.specs.Prelude.{◌≡◌, [], ◌∷◌};
ghost use Rattle.model.specs.Values.{basic_set_of};
ghost use Rattle.codec.specs.Places.{set_from};
ghost use Rattle.algebra.specs.Cut.{keeps, cut_all, cut_all_fits, difference, difference_fits};
ghost use Rattle.candidates.specs.Candidates.{Tables};
ghost use Rattle.cutting.specs.Cutting.{Spares};
ghost use Rattle.results.specs.Results.{Ready, Emits, Made};
ghost use Rattle.subtraction.specs.Subtraction.{Sets, From, Level, TightAt};

use cutting::{cut, piece};
use joining::{any_divisible, tight_set};
use model::{BasicSet, limit};
use records::decode_basic;
use results::{Done, emit};

// The pieces that the `left` cutters from `pos` on leave of p, which is tight where there is one.
pub fn cut_all(
    left: usize,
    p: BasicSet,
    b: &[u8],
    pos: usize,
    out: &mut [u8],
    s: Done,
    rows: &mut [[i64; 18]],
    place: &mut [usize],
    kinds: &mut [u8],
    past: &mut [[i64; 18]],
    spare: &mut [[i64; 18]],
) -> Done
    requires { Level left p b.now pos × Ready s × Tables rows.old place.old kinds.old × Spares past.old spare.old × TightAt left p }
    ensures { Emits (cut_all keeps (set_from b.now pos) (basic_set_of p)) (cut_all_fits keeps (set_from b.now pos) (basic_set_of p)) out.old s result out.new }
{
    if left == 0 {
        return emit(p, out, s);
    }
    let v = decode_basic(b, pos + 1);
    let end = codec::end_of(b, pos + 1);
    let c = match cut(p, v, rows, place, kinds, past, spare) {
        Some(c) => c,
        None => return Done { fits: false, ..s },
    };
    let mut t = s;
    for i in 0..c.count {
        let q = piece(c.working, c.steps[i]);
        t = cut_all(left - 1, q, b, end, out, t, rows, place, kinds, past, spare);
        if !t.fits {
            return t;
        }
    }
    t
}

// p once its constraints are tightened, cut by all of b; where one of them is void nothing is left, and nothing is over a limit.
fn cut_divided(
    left: usize,
    p: BasicSet,
    b: &[u8],
    out: &mut [u8],
    s: Done,
    rows: &mut [[i64; 18]],
    place: &mut [usize],
    kinds: &mut [u8],
    past: &mut [[i64; 18]],
    spare: &mut [[i64; 18]],
) -> Done
    requires { Level left p b.now 0 × Ready s × Tables rows.old place.old kinds.old × Spares past.old spare.old × (left ≡ 0 → ⊥) }
    ensures { Emits (cut_all keeps (set_from b.now 0) (basic_set_of p)) (cut_all_fits keeps (set_from b.now 0) (basic_set_of p)) out.old s result out.new }
{
    match tight_set(p) {
        Some(q) => cut_all(left, q, b, 0, out, s, rows, place, kinds, past, spare),
        None => s,
    }
}

// A basic set of the first set, cut by all of b; with no cutter it stays as it is. Most are tight already.
fn cut_first(
    left: usize,
    p: BasicSet,
    b: &[u8],
    out: &mut [u8],
    s: Done,
    rows: &mut [[i64; 18]],
    place: &mut [usize],
    kinds: &mut [u8],
    past: &mut [[i64; 18]],
    spare: &mut [[i64; 18]],
) -> Done
    requires { Level left p b.now 0 × Ready s × Tables rows.old place.old kinds.old × Spares past.old spare.old }
    ensures { Emits (cut_all keeps (set_from b.now 0) (basic_set_of p)) (cut_all_fits keeps (set_from b.now 0) (basic_set_of p)) out.old s result out.new }
{
    if left == 0 {
        return emit(p, out, s);
    }
    if any_divisible(p) {
        return cut_divided(left, p, b, out, s, rows, place, kinds, past, spare);
    }
    cut_all(left, p, b, 0, out, s, rows, place, kinds, past, spare)
}

// Each basic set of a in order, cut by all of b.
pub fn subtract(a: &[u8], b: &[u8], out: &mut [u8]) -> Done
    requires { Sets a.now b.now }
    ensures { Made (difference_fits keeps (set_from a.now 0) (set_from b.now 0)) (difference keeps (set_from a.now 0) (set_from b.now 0)) out.old result out.new }
{
    let left = codec::count(b);
    let mut rows = [[0i64; 18]; 64];
    let mut place = [0usize; 80];
    let mut kinds = [0u8; 80];
    let mut past = [[0i64; 18]; limit::PIVOTS];
    let mut spare = [[0i64; 18]; 64];
    let mut t = Done {
        at: 0,
        count: 0,
        fits: true,
    };
    let mut pos = 0;
    while pos < a.len() {
        let p = decode_basic(a, pos + 1);
        t = cut_first(
            left, p, b, out, t, &mut rows, &mut place, &mut kinds, &mut past, &mut spare,
        );
        let on = t.fits;
        if !on {
            return t;
        }
        pos = codec::end_of(a, pos + 1);
    }
    t
}

// One basic set, cut by all of b.
pub fn subtract_from(p: BasicSet, b: &[u8], out: &mut [u8]) -> Done
    requires { From p b.now }
    ensures { Made (difference_fits keeps (basic_set_of p ∷ []) (set_from b.now 0)) (difference keeps (basic_set_of p ∷ []) (set_from b.now 0)) out.old result out.new }
{
    let left = codec::count(b);
    let mut rows = [[0i64; 18]; 64];
    let mut place = [0usize; 80];
    let mut kinds = [0u8; 80];
    let mut past = [[0i64; 18]; limit::PIVOTS];
    let mut spare = [[0i64; 18]; 64];
    let t = Done {
        at: 0,
        count: 0,
        fits: true,
    };
    cut_first(
        left, p, b, out, t, &mut rows, &mut place, &mut kinds, &mut past, &mut spare,
    )
}
