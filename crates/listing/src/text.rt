// Words and numbers of the output's lines, written into a lent buffer from a place on. Each gives the place after it.
ghost use Rattle.std.specs.Prelude.{[], ◌+◌, ◌*◌, ◌≤◌, ◌<◌, pos, length, take, drop};
ghost use Rattle.model.specs.Lists.{concat_map};
ghost use Rattle.model.specs.Limits.{most_axes};
ghost use Rattle.codec.specs.Bytes.{signed_list};
ghost use Rattle.listing.specs.Text as T;
ghost use Rattle.listing.specs.Written.{Writes, signed_in};

use model::limit;

// Fixed bytes.
pub fn word(out: &mut [u8], at: usize, w: &[u8]) -> usize
    requires { at + length w.now ≤ length out.old }
    ensures { Writes (length w.now) w.now out.old at result out.new }
{
    let end = at + w.len();
    out[at..end].copy_from_slice(w);
    end
}

fn digits(out: &mut [u8], at: usize, n: u64) -> usize
    requires { at + 20 ≤ length out.old }
    ensures { Writes 20 (T.digits 20 n []) out.old at result out.new }
{
    if n < 10 {
        out[at] = b'0' + n as u8;
        return at + 1;
    }
    let last = digits(out, at, n / 10);
    out[last] = b'0' + (n % 10) as u8;
    last + 1
}

// A space and a number that is not below 0.
pub fn natural(out: &mut [u8], at: usize, n: u64) -> usize
    requires { at + 21 ≤ length out.old }
    ensures { Writes 21 (T.number (pos n)) out.old at result out.new }
{
    let at = word(out, at, b" ");
    digits(out, at, n)
}

// A space and the number whose bits are v, in two's complement of `size` numbers.
pub fn number(out: &mut [u8], at: usize, v: u64, size: u64) -> usize
    requires { (at + 22 ≤ length out.old) × (v < size) × (size ≤ 4294967296) }
    ensures { Writes 22 (T.number (signed_in size v)) out.old at result out.new }
{
    if 2 * v < size {
        return natural(out, at, v);
    }
    let at = word(out, at, b" -");
    digits(out, at, size - v)
}

// As many signed numbers of 16 bits as `count` says, from place p of t on.
pub fn coefficients(out: &mut [u8], at: usize, t: &[u8], p: usize, count: usize) -> usize
    requires { (p + 2 * count ≤ length t.now) × (at + 22 * count ≤ length out.old) }
    ensures { Writes (22 * count) (concat_map T.number (signed_list count (drop p t.now))) out.old at result out.new }
{
    let mut end = at;
    for i in 0..count {
        end = number(out, end, integers::u16_at(t, p + 2 * i), 65536);
    }
    end
}

// A space and a signed number.
fn integer(out: &mut [u8], at: usize, z: i64) -> usize
    requires { at + 22 ≤ length out.old }
    ensures { Writes 22 (T.number z) out.old at result out.new }
{
    if z < 0 {
        let at = word(out, at, b" -");
        return digits(out, at, z.unsigned_abs());
    }
    natural(out, at, z.unsigned_abs())
}

// The first n coordinates of a point.
pub fn coordinates(out: &mut [u8], at: usize, p: [i64; limit::AXES], n: usize) -> usize
    requires { (n ≤ most_axes) × (at + 22 * n ≤ length out.old) }
    ensures { Writes (22 * n) (concat_map T.number (take n p)) out.old at result out.new }
{
    let mut end = at;
    for z in &p[..n] {
        end = integer(out, end, *z);
    }
    end
}
