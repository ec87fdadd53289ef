// A box as a basic set: two rules an axis.
ghost use Rattle.std.specs.Prelude.{◌≡◌, true, ◌≤◌, ◌<◌, length};
ghost use Rattle.model.specs.Limits.{most_axes, most_constraints};
ghost use Rattle.model.specs.Values.{constraint_of};
ghost use Rattle.enumeration.specs.Search.{box_fits};
ghost use Rattle.boxes.specs.Box.{side_rule};
ghost use Rattle.coverage.specs.Boxing.{BoxIs};

use model::{BasicSet, Constraint, Division, limit};

// k + c·(axis i) ≥ 0
fn side_rule(i: usize, c: i16, k: i32) -> Constraint
    requires { i < most_axes }
    ensures { constraint_of result ≡ side_rule i c k }
{
    let mut axes = [0; limit::AXES];
    axes[i] = c;
    Constraint {
        equality: false,
        number: 0,
        constant: k,
        axes,
        divisions: [0; limit::DIVISIONS],
    }
}

fn no_division() -> Division {
    Division {
        divisor: 1,
        constant: 0,
        axes: [0; limit::AXES],
    }
}

fn no_rules() -> [Constraint; limit::CONSTRAINTS]
    ensures { length result ≡ most_constraints }
{
    [side_rule(0, 0, 0); limit::CONSTRAINTS]
}

// A box that fits, as a basic set.
pub fn boxed(n: usize, low: [i32; limit::AXES], high: [i32; limit::AXES]) -> BasicSet
    requires { (n ≤ most_axes) × (box_fits n low high ≡ true) }
    ensures { BoxIs n low high result }
{
    let mut rules = no_rules();
    for i in 0..n {
        let j = 2 * i;
        rules[j] = side_rule(i, 1, -low[i]);
        rules[j + 1] = side_rule(i, -1, high[i]);
    }
    BasicSet {
        divisions: [no_division(); limit::DIVISIONS],
        constraints: rules,
        divs: 0,
        cons: 2 * n,
    }
}
