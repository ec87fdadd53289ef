// The four operations: the result's bytes go to the lent table, its length or the refusal comes back as a number.
ghost use Rattle.std.specs.Prelude.{length};
ghost use Rattle.algebra.specs.Operations.{union_bytes, intersection_bytes, difference_bytes, complement_bytes};
ghost use Rattle.probe.specs.Numbers.{Probed};

use crate::numbers::length_number;

#[unsafe(no_mangle)]
pub extern "C" fn probe_union(n: usize, first: &[u8], second: &[u8], out: &mut [u8]) -> usize
    ensures { Probed (length out.old)
        (union_bytes n (length out.old) first.now second.now)
        result out.new }
{
    length_number(operations::union(n, first, second, out))
}

#[unsafe(no_mangle)]
pub extern "C" fn probe_intersection(n: usize, first: &[u8], second: &[u8], out: &mut [u8]) -> usize
    ensures { Probed (length out.old)
        (intersection_bytes n (length out.old) first.now second.now)
        result out.new }
{
    length_number(operations::intersection(n, first, second, out))
}

#[unsafe(no_mangle)]
pub extern "C" fn probe_difference(n: usize, first: &[u8], second: &[u8], out: &mut [u8]) -> usize
    ensures { Probed (length out.old)
        (difference_bytes n (length out.old) first.now second.now)
        result out.new }
{
    length_number(operations::difference(n, first, second, out))
}

#[unsafe(no_mangle)]
pub extern "C" fn probe_complement(n: usize, set: &[u8], out: &mut [u8]) -> usize
    ensures { Probed (length out.old)
        (complement_bytes n (length out.old) set.now)
        result out.new }
{
    length_number(operations::complement(n, set, out))
}
