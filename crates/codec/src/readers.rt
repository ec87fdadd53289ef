// Bytes and numbers of lent bytes.
ghost use Rattle.std.specs.Prelude.{◌≡◌, ◌+◌, ◌≤◌, length, take, drop, get_or};
ghost use Rattle.integers.specs.Z.{Within};
ghost use Rattle.codec.specs.Bytes.{value_of, signed};

pub fn tail<'a>(s: &'a [u8], p: usize) -> &'a [u8]
    requires { p ≤ length s.now }
    ensures { result.now ≡ drop p s.now }
{
    &s[p..]
}

// The byte at a place, 0 past the end.
pub fn code(s: &[u8], at: usize) -> u8
    ensures { result ≡ get_or s.now at 0 }
{
    if at < s.len() { s[at] } else { 0 }
}

pub fn s16_at(t: &[u8], p: usize) -> i64
    requires { p + 2 ≤ length t.now }
    ensures is { result ≡ signed 2 (value_of (take 2 (drop p t.now))) }
    ensures size { Within 32768 result }
{
    integers::i16_at(t, p) as i64
}

pub fn s32_at(t: &[u8], p: usize) -> i64
    requires { p + 4 ≤ length t.now }
    ensures is { result ≡ signed 4 (value_of (take 4 (drop p t.now))) }
    ensures size { Within 2147483648 result }
{
    integers::i32_at(t, p) as i64
}
