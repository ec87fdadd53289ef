// The four operations: the result's bytes go to the lent table, its length or the refusal comes back as a number.
ghost use Rattle.std.specs.Prelude.{length};
ghost use Rattle.algebra.specs.Operations.{union_bytes, intersection_bytes, difference_bytes, complement_bytes};
ghost use Rattle.answers.specs.Numbers.{Hosted};

use answers::length_number;

#[unsafe(no_mangle)]
pub extern "C" fn pitsets_union(n: usize, a: &[u8], b: &[u8], out: &mut [u8]) -> i64
    ensures { Hosted (length out.old) (union_bytes n (length out.old) a.now b.now) result out.new }
{
    length_number(operations::union(n, a, b, out))
}

#[unsafe(no_mangle)]
pub extern "C" fn pitsets_intersection(n: usize, a: &[u8], b: &[u8], out: &mut [u8]) -> i64
    ensures { Hosted (length out.old) (intersection_bytes n (length out.old) a.now b.now) result out.new }
{
    length_number(operations::intersection(n, a, b, out))
}

#[unsafe(no_mangle)]
pub extern "C" fn pitsets_difference(n: usize, a: &[u8], b: &[u8], out: &mut [u8]) -> i64
    ensures { Hosted (length out.old) (difference_bytes n (length out.old) a.now b.now) result out.new }
{
    length_number(operations::difference(n, a, b, out))
}

#[unsafe(no_mangle)]
pub extern "C" fn pitsets_complement(n: usize, a: &[u8], out: &mut [u8]) -> i64
    ensures { Hosted (length out.old) (complement_bytes n (length out.old) a.now) result out.new }
{
    length_number(operations::complement(n, a, out))
}
