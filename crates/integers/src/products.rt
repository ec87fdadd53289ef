// Sums and differences of products.
ghost use Rattle.std.specs.Prelude.{◌≡◌, ◌-ℤ◌, ◌*ℤ◌};
ghost use Rattle.std.specs.Int.{w16, w64};
ghost use Rattle.integers.specs.Z.{Within};
ghost use Rattle.integers.specs.Size.{bound};
ghost use Rattle.integers.specs.Sum.{DotFits, Dotted};

// a · b − c · d: it fits 64 bits where the four are within the bound of document 000.
pub fn determinant(a: i64, b: i64, c: i64, d: i64) -> i64
    requires within { Within (bound 64) a }
    requires within_2 { Within (bound 64) b }
    requires within_3 { Within (bound 64) c }
    requires within_4 { Within (bound 64) d }
    ensures { result ≡ a *ℤ b -ℤ c *ℤ d }
{
    a * b - c * d
}

// The sum of the products of coefficients and coordinates, as far as the coordinates go.
pub fn dot(a: &[i16], x: &[i64]) -> i64
    requires { DotFits w16 w64 a.now x.now }
    ensures { Dotted w16 a.now x.now result }
{
    let mut s: i64 = 0;
    for (i, v) in x.iter().enumerate() {
        s += i64::from(a[i]) * v;
    }
    s
}
