// Numbers in lent bytes: little-endian, 16 and 32 bits, signed ones in two's complement.
ghost use Rattle.std.specs.Prelude.{◌≡◌, ◌+◌, ◌≤◌, ◌<◌, length, take, drop};
ghost use Rattle.integers.specs.LittleEndian.{value_of, bytes_of, signed, signed_bytes, put};

pub fn u16_at(t: &[u8], p: usize) -> u64
    requires { p + 2 ≤ length t.now }
    ensures is { result ≡ value_of (take 2 (drop p t.now)) }
    ensures small { result < 65536 }
{
    u64::from(u16::from_le_bytes([t[p], t[p + 1]]))
}

pub fn u32_at(t: &[u8], p: usize) -> u64
    requires { p + 4 ≤ length t.now }
    ensures is { result ≡ value_of (take 4 (drop p t.now)) }
    ensures small { result < 4294967296 }
{
    u64::from(u32::from_le_bytes([t[p], t[p + 1], t[p + 2], t[p + 3]]))
}

pub fn i16_at(t: &[u8], p: usize) -> i16
    requires { p + 2 ≤ length t.now }
    ensures { result ≡ signed 2 (value_of (take 2 (drop p t.now))) }
{
    i16::from_le_bytes([t[p], t[p + 1]])
}

pub fn i32_at(t: &[u8], p: usize) -> i32
    requires { p + 4 ≤ length t.now }
    ensures { result ≡ signed 4 (value_of (take 4 (drop p t.now))) }
{
    i32::from_le_bytes([t[p], t[p + 1], t[p + 2], t[p + 3]])
}

pub fn put_u16(t: &mut [u8], p: usize, v: u64)
    requires { (p + 2 ≤ length t.old) × (v < 65536) }
    ensures { t.new ≡ put p (bytes_of 2 v) t.old }
{
    t[p..p + 2].copy_from_slice(&(v as u16).to_le_bytes());
}

pub fn put_u32(t: &mut [u8], p: usize, v: u64)
    requires { (p + 4 ≤ length t.old) × (v < 4294967296) }
    ensures { t.new ≡ put p (bytes_of 4 v) t.old }
{
    t[p..p + 4].copy_from_slice(&(v as u32).to_le_bytes());
}

pub fn put_i16(t: &mut [u8], p: usize, z: i16)
    requires { p + 2 ≤ length t.old }
    ensures { t.new ≡ put p (signed_bytes 2 z) t.old }
{
    t[p..p + 2].copy_from_slice(&z.to_le_bytes());
}

pub fn put_i32(t: &mut [u8], p: usize, z: i32)
    requires { p + 4 ≤ length t.old }
    ensures { t.new ≡ put p (signed_bytes 4 z) t.old }
{
    t[p..p + 4].copy_from_slice(&z.to_le_bytes());
}
