// Coefficients of 32 bits: in range, absent from a place on, and as 16 bits.
ghost use Rattle.std.specs.Prelude.{◌≡◌, T};
ghost use Rattle.model.specs.Lists.{all};
ghost use Rattle.model.specs.Sets.{absent};
ghost use Rattle.codec.specs.Bytes.{coefficient};

use model::limit;

const LEAST_COEFFICIENT: i32 = -limit::COEFFICIENT;

fn is_coefficient(x: i32) -> bool
    ensures { result ≡ coefficient x }
{
    LEAST_COEFFICIENT <= x && x <= limit::COEFFICIENT
}

pub fn are_coefficients(a: [i32; limit::PLACES]) -> bool
    ensures { result ≡ all coefficient a }
{
    a.iter().all(|x| is_coefficient(*x))
}

// Whether a has nothing but 0 from place n on.
pub fn are_absent(n: usize, a: [i32; limit::PLACES]) -> bool
    ensures { result ≡ absent n a }
{
    a.iter().skip(n).all(|x| *x == 0)
}

pub fn narrowed(a: [i32; limit::PLACES]) -> [i16; limit::PLACES]
    requires { T (all coefficient a) }
    ensures { result ≡ a }
{
    let mut r = [0i16; limit::PLACES];
    for i in 0..limit::PLACES {
        r[i] = a[i] as i16;
    }
    r
}
