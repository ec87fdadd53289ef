// The greatest common divisor, and the size of a number.
ghost use Rattle.std.specs.Prelude.{◌≡◌, nat_abs};
ghost use Rattle.integers.specs.Gcd.{gcd as gcd_of};

// Euclid's steps.
pub fn gcd(mut a: u64, mut b: u64) -> u64
    ensures { result ≡ gcd_of a b }
{
    while b != 0 {
        (a, b) = (b, a % b);
    }
    a
}

pub fn magnitude(x: i64) -> u64
    ensures { result ≡ nat_abs x }
{
    x.unsigned_abs()
}
