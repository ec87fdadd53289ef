// Of two sets, the first basic set that holds a point, the first table before the second.
ghost use Rattle.std.specs.Prelude.{◌≡◌};
ghost use Rattle.codec.specs.Places.{Accepted, set_from};
ghost use Rattle.query.specs.Holder.{first_holding, in_either, holder_bytes};
ghost use Rattle.query.specs.Holding.{Point};
ghost use Rattle.query.specs.Handed.{holder_is, seen, handed};

use crate::membership::{first_holding, point_fits, widened};
use model::limit;

// A basic set of the first or the second table, by its number from 1.
#[derive(Clone, Copy)]
pub struct Seat {
    pub second: bool,
    pub number: usize,
}

fn seat_of(a: &[u8], b: &[u8], x: &[i64]) -> Option<Seat>
    requires { Accepted a.now × Accepted b.now × Point x.now }
    ensures { holder_is result ≡ in_either (first_holding 1 x.now (set_from a.now 0)) (first_holding 1 x.now (set_from b.now 0)) }
{
    match first_holding(a, x) {
        Some(number) => Some(Seat {
            second: false,
            number,
        }),
        None => first_holding(b, x).map(|number| Seat {
            second: true,
            number,
        }),
    }
}

fn seated(n: usize, a: &[u8], b: &[u8], point: [i32; limit::AXES]) -> Option<Seat>
    ensures { holder_is result ≡ holder_bytes n a.now b.now point }
{
    codec::check(n, a).ok()?;
    codec::check(n, b).ok()?;
    if !point_fits(n, point) {
        return None;
    }
    let x = widened(point);
    seat_of(a, b, &x[..n])
}

// The first basic set that holds the point, as a part of the table it came from; an empty part of the first table where
// there is none or an input is bad.
pub fn holder<'a>(n: usize, a: &'a [u8], b: &'a [u8], point: [i32; limit::AXES]) -> &'a [u8]
    ensures { seen result ≡ handed n a.entry b.entry (holder_bytes n a.now b.now point) }
{
    match seated(n, a, b, point) {
        Some(
            Seat {
                second: false,
                number,
            },
        ) => codec::basic(n, a, number),
        Some(
            Seat {
                second: true,
                number,
            },
        ) => codec::basic(n, b, number),
        None => codec::basic(n, a, 0),
    }
}
