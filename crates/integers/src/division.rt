// Division rounded towards minus infinity.
ghost use Rattle.std.specs.Prelude.{◌≡◌, pos, nat_abs, ◌<ℤ◌};
ghost use Rattle.integers.specs.Div.{floor_div};

// n / d rounded down.
pub fn floor_div(n: i64, d: i64) -> i64
    requires { pos 0 <ℤ d }
    ensures { result ≡ floor_div n (nat_abs d) }
{
    n.div_euclid(d)
}
