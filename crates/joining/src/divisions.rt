// Joined divisions (document 01, "Cutting rules"): where each division of the second basic set goes, and its coefficients moved there.
ghost use Rattle.std.specs.Prelude.{◌≡◌, map, ◌≤◌, take};
ghost use Rattle.model.specs.Values.{division_of, constraint_of};
ghost use Rattle.model.specs.Limits.{most_divisions};
ghost use Rattle.algebra.specs.Cut.{same_division, move, move_constraint};
ghost use Rattle.joining.specs.Joining.{Seeking, Joining, Placed};

use model::{Constraint, Division, limit};

// The joined divisions, and the places of the second's divisions among them.
#[derive(Clone, Copy)]
pub struct Joined {
    pub divisions: [Division; limit::DIVISIONS],
    pub divs: usize,
    pub places: [usize; limit::DIVISIONS],
}

#[tactic(auto, using(crate::proofs::Placing::pointwise_same))]
fn same(e: Division, f: Division) -> bool
    ensures { result ≡ same_division (division_of e) (division_of f) }
{
    e.divisor == f.divisor && e.constant == f.constant && e.axes == f.axes
}

// The first of the n divisions that equals e and is not taken.
fn seek(
    e: Division,
    ds: [Division; limit::DIVISIONS],
    n: usize,
    taken: [bool; limit::DIVISIONS],
) -> Option<usize>
    requires { n ≤ most_divisions }
    ensures { Seeking (division_of e) (map division_of (take n ds)) n taken result }
{
    for i in 0..n {
        if !taken[i] && same(e, ds[i]) {
            return Some(i);
        }
    }
    None
}

// Nothing: over 8.
pub fn join(
    ds: [Division; limit::DIVISIONS],
    n: usize,
    es: [Division; limit::DIVISIONS],
    m: usize,
) -> Option<Joined>
    requires { (n ≤ most_divisions) × (m ≤ most_divisions) }
    ensures { Joining (map division_of (take n ds)) (map division_of (take m es)) m result }
{
    let mut divisions = ds;
    let mut divs = n;
    let mut taken = [false; limit::DIVISIONS];
    let mut places = [0usize; limit::DIVISIONS];
    for k in 0..m {
        match seek(es[k], ds, n, taken) {
            Some(i) => {
                taken[i] = true;
                places[k] = i;
            }
            None => {
                if divs == limit::DIVISIONS {
                    return None;
                }
                divisions[divs] = es[k];
                places[k] = divs;
                divs += 1;
            }
        }
    }
    Some(Joined {
        divisions,
        divs,
        places,
    })
}

// The coefficients of the second's n divisions at their places.
fn at_places(
    from: [i16; limit::DIVISIONS],
    places: [usize; limit::DIVISIONS],
    n: usize,
) -> [i16; limit::DIVISIONS]
    requires { (n ≤ most_divisions) × Placed (take n places) }
    ensures { result ≡ move (take n places) from }
{
    let mut to = [0i16; limit::DIVISIONS];
    for k in (0..n).rev() {
        to[places[k]] = from[k];
    }
    to
}

pub fn moved(c: Constraint, places: [usize; limit::DIVISIONS], n: usize) -> Constraint
    requires { (n ≤ most_divisions) × Placed (take n places) }
    ensures { constraint_of result ≡ move_constraint (take n places) (constraint_of c) }
{
    Constraint {
        divisions: at_places(c.divisions, places, n),
        ..c
    }
}
