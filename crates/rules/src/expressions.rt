// An expression's own numbers: refused by 7 or 8, else an inequality's.
ghost use Rattle.std.specs.Prelude.{◌≡◌, T};
ghost use Rattle.model.specs.Lists.{all};
ghost use Rattle.model.specs.Refused.{number_in};
ghost use Rattle.model.specs.Values.{constraint_of};
ghost use Rattle.codec.specs.Bytes.{coefficient};
ghost use Rattle.rules.specs.Expressions.{expression_of, numbers_refusal};

use crate::coefficients::{are_absent, are_coefficients};
use crate::{Expression, Rule, constraint_of};
use model::{Constraint, Refusal};

// Refused by 7 or 8 unless the expression is one over n axes and k divisions.
pub fn check_expression(n: usize, k: usize, e: Expression) -> Result<(), Refusal>
    ensures { number_in result ≡ numbers_refusal n k (expression_of e) }
{
    if !are_coefficients(e.axes) || !are_coefficients(e.divisions) {
        return Err(Refusal::OutOfRange);
    }
    if !are_absent(n, e.axes) || !are_absent(k, e.divisions) {
        return Err(Refusal::NotAbsent);
    }
    Ok(())
}

// The same numbers as an inequality.
pub fn inequality_of(e: Expression) -> Constraint
    requires { T (all coefficient e.axes) × T (all coefficient e.divisions) }
    ensures { constraint_of result ≡ expression_of e }
{
    let Expression {
        constant,
        axes,
        divisions,
    } = e;
    constraint_of(Rule {
        equality: false,
        constant,
        axes,
        divisions,
    })
}
