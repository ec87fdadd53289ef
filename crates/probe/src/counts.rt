// The count: the points of a box that are in a set, all of them and by one axis.
ghost use Rattle.std.specs.Prelude.{◌≡◌, [], ◌∷◌, length};
ghost use Rattle.std.proofs.Math.Option.{none};
ghost use Rattle.codec.specs.Refusing.{answer_is};
ghost use Rattle.enumeration.specs.Counting.{count_bytes, counts_bytes};
ghost use Rattle.answers.specs.Numbers.{tested_in};
ghost use Rattle.probe.specs.Counts.{count_number, whole_in, CountProbed, CountsProbed};

use crate::numbers::count_number;
use counting::Counted;
use model::Refusal;

// The number of a count, how many points there are, and the prefixes tested: 0 where the answer has none.
fn told(count: Result<Counted, Refusal>, whole: &mut u32, tested: &mut u32) -> u64
    ensures number { result ≡ count_number (answer_is (λ x. x) count) }
    ensures members { whole.new ≡ whole_in (answer_is (λ x. x) count) }
    ensures prefixes { tested.new ≡ tested_in (answer_is (λ x. x) count) }
{
    *whole = count.map_or(0, |count| count.whole.unwrap_or(0));
    *tested = count.map_or(0, |count| count.tested);
    count_number(count)
}

// counting::count: 0 counted, 2 spent, 100 and the number of a refusal.
#[unsafe(no_mangle)]
pub extern "C" fn probe_count(
    n: usize,
    set: &[u8],
    limit: u32,
    l1: i32,
    l2: i32,
    l3: i32,
    l4: i32,
    l5: i32,
    l6: i32,
    l7: i32,
    l8: i32,
    h1: i32,
    h2: i32,
    h3: i32,
    h4: i32,
    h5: i32,
    h6: i32,
    h7: i32,
    h8: i32,
    whole: &mut u32,
    tested: &mut u32,
) -> u64
    ensures { CountProbed (count_bytes n set.now
        (l1 ∷ l2 ∷ l3 ∷ l4 ∷ l5 ∷ l6 ∷ l7 ∷ l8 ∷ []) (h1 ∷ h2 ∷ h3 ∷ h4 ∷ h5 ∷ h6 ∷ h7 ∷ h8 ∷ []) none limit)
        result whole.new tested.new }
{
    let count = counting::count(
        n,
        set,
        [l1, l2, l3, l4, l5, l6, l7, l8],
        [h1, h2, h3, h4, h5, h6, h7, h8],
        limit,
    );
    told(count, whole, tested)
}

// counting::counts, the counts of the axis in the lent table.
#[unsafe(no_mangle)]
pub extern "C" fn probe_counts(
    n: usize,
    set: &[u8],
    limit: u32,
    axis: usize,
    l1: i32,
    l2: i32,
    l3: i32,
    l4: i32,
    l5: i32,
    l6: i32,
    l7: i32,
    l8: i32,
    h1: i32,
    h2: i32,
    h3: i32,
    h4: i32,
    h5: i32,
    h6: i32,
    h7: i32,
    h8: i32,
    each: &mut [u32],
    whole: &mut u32,
    tested: &mut u32,
) -> u64
    ensures { CountsProbed (length each.old)
        (counts_bytes n (length each.old) set.now
        (l1 ∷ l2 ∷ l3 ∷ l4 ∷ l5 ∷ l6 ∷ l7 ∷ l8 ∷ []) (h1 ∷ h2 ∷ h3 ∷ h4 ∷ h5 ∷ h6 ∷ h7 ∷ h8 ∷ []) axis limit)
        result each.new whole.new tested.new }
{
    let count = counting::counts(
        n,
        set,
        [l1, l2, l3, l4, l5, l6, l7, l8],
        [h1, h2, h3, h4, h5, h6, h7, h8],
        axis,
        limit,
        each,
    );
    told(count, whole, tested)
}
