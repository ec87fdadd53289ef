// The opposites of a constraint (document 01, "Cutting rules").
ghost use Rattle.std.specs.Prelude.{◌≡◌, map, T, neg_ℤ};
ghost use Rattle.model.specs.Lists.{all};
ghost use Rattle.model.specs.Values.{constraint_of};
ghost use Rattle.codec.specs.Bytes.{coefficient};
ghost use Rattle.algebra.specs.Cut as C;
ghost use Rattle.joining.specs.Joining.{Below, Above};

use model::{Constraint, limit};

fn negated(xs: [i16; limit::PLACES]) -> [i16; limit::PLACES]
    requires { T (all coefficient xs) }
    ensures { result ≡ map neg_ℤ xs }
{
    let mut negated = xs;
    for x in &mut negated {
        *x = -*x;
    }
    negated
}

// −e − 1 ≥ 0, under the rule's number. The constant is −1 − c, which fits for every c of 32 bits.
pub fn below(c: Constraint) -> Constraint
    requires { Below (constraint_of c) }
    ensures { constraint_of result ≡ C.below (constraint_of c) }
{
    Constraint {
        equality: false,
        number: c.number,
        constant: -1 - c.constant,
        axes: negated(c.axes),
        divisions: negated(c.divisions),
    }
}

// e − 1 ≥ 0, of an equality, under its number.
pub fn above(c: Constraint) -> Constraint
    requires { Above (constraint_of c) }
    ensures { constraint_of result ≡ C.above (constraint_of c) }
{
    Constraint {
        equality: false,
        constant: c.constant - 1,
        ..c
    }
}
