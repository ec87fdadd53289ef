// A rule's own numbers: refused by 7, 8 or 10, else a constraint's.
ghost use Rattle.std.specs.Prelude.{◌≡◌, T};
ghost use Rattle.model.specs.Lists.{all};
ghost use Rattle.model.specs.Refused.{number_in};
ghost use Rattle.model.specs.Values.{kind_is, constraint_of};
ghost use Rattle.codec.specs.Bytes.{coefficient, constant_fits};
ghost use Rattle.rules.specs.Rules.{rule_of, rule_number};

use crate::coefficients::narrowed;
use crate::{Expression, Rule, check_expression};
use model::{Constraint, Refusal, limit};

// An equality's constant has an opposite.
fn constant_fits(equality: bool, z: i32) -> bool
    ensures { result ≡ constant_fits (kind_is equality) z }
{
    !equality || i32::MIN < z
}

// Refused by 7, 8 or 10 unless the rule is one over n axes and k divisions that has room beside `rules` others.
pub fn check_rule(n: usize, k: usize, rules: usize, r: Rule) -> Result<(), Refusal>
    ensures { number_in result ≡ rule_number n k rules (rule_of r) }
{
    if !constant_fits(r.equality, r.constant) {
        return Err(Refusal::OutOfRange);
    }
    let Rule {
        constant,
        axes,
        divisions,
        ..
    } = r;
    let e = Expression {
        constant,
        axes,
        divisions,
    };
    check_expression(n, k, e)?;
    if limit::CONSTRAINTS <= rules {
        return Err(Refusal::OverLimit);
    }
    Ok(())
}

pub fn constraint_of(r: Rule) -> Constraint
    requires { T (all coefficient r.axes) × T (all coefficient r.divisions) }
    ensures { constraint_of result ≡ rule_of r }
{
    Constraint {
        equality: r.equality,
        number: 0,
        constant: r.constant,
        axes: narrowed(r.axes),
        divisions: narrowed(r.divisions),
    }
}
