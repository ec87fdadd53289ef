// Checking a set's bytes, the parts of them, and asking of a point.
ghost use Rattle.std.specs.Prelude.{◌≡◌, [], ◌∷◌};
ghost use Rattle.codec.specs.Bytes.{decode, number};
ghost use Rattle.codec.specs.Parts.{part_of, held};
ghost use Rattle.records.specs.Writing.{Emitted};
ghost use Rattle.query.specs.Member.{member_bytes};
ghost use Rattle.query.specs.Holder.{holder_bytes};
ghost use Rattle.query.specs.Handed.{handed};
ghost use Rattle.probe.specs.Numbers.{member_number};

use crate::numbers::member_number;
use model::Refusal;

#[unsafe(no_mangle)]
pub extern "C" fn probe_check(n: usize, set: &[u8]) -> u32
    ensures { result ≡ number (decode n set.now) }
{
    codec::check(n, set).map_or_else(Refusal::number, |()| 0)
}

// codec::basic: the bytes of the part as far as `out` goes; the result is the length of the part.
#[unsafe(no_mangle)]
pub extern "C" fn probe_part(n: usize, set: &[u8], k: usize, out: &mut [u8]) -> usize
    ensures { Emitted (held (part_of n set.now k) set.now)
        out.old 0 result out.new }
{
    records::copy_bytes(codec::basic(n, set, k), out, 0)
}

// query::member: 1 in, 0 out, 100 and the number of a refusal.
#[unsafe(no_mangle)]
pub extern "C" fn probe_member(
    n: usize,
    set: &[u8],
    x1: i32,
    x2: i32,
    x3: i32,
    x4: i32,
    x5: i32,
    x6: i32,
    x7: i32,
    x8: i32,
) -> u64
    ensures { result ≡ member_number (member_bytes n set.now
        (x1 ∷ x2 ∷ x3 ∷ x4 ∷ x5 ∷ x6 ∷ x7 ∷ x8 ∷ [])) }
{
    member_number(query::member(n, set, [x1, x2, x3, x4, x5, x6, x7, x8]))
}

// query::holder: the bytes of the part, as above.
#[unsafe(no_mangle)]
pub extern "C" fn probe_holder<'a>(
    n: usize,
    first: &'a [u8],
    second: &'a [u8],
    x1: i32,
    x2: i32,
    x3: i32,
    x4: i32,
    x5: i32,
    x6: i32,
    x7: i32,
    x8: i32,
    out: &mut [u8],
) -> usize
    ensures { Emitted (handed n first.entry second.entry
        (holder_bytes n first.now second.now (x1 ∷ x2 ∷ x3 ∷ x4 ∷ x5 ∷ x6 ∷ x7 ∷ x8 ∷ []))).1
        out.old 0 result out.new }
{
    records::copy_bytes(
        query::holder(n, first, second, [x1, x2, x3, x4, x5, x6, x7, x8]),
        out,
        0,
    )
}
