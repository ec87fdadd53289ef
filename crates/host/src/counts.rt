// How many points of a box are in a set, and how many with each value of one axis.
ghost use Rattle.std.specs.Prelude.{◌≡◌, [], ◌∷◌, length};
ghost use Rattle.std.proofs.Math.Option.{none};
ghost use Rattle.codec.specs.Refusing.{answer_is};
ghost use Rattle.enumeration.specs.Counting.{count_bytes, counts_bytes};
ghost use Rattle.answers.specs.Numbers.{outcome_number, tested_in, CountHosted, CountsHosted};

use answers::count_number;
use counting::Counted;
use model::Refusal;

// The number of a count, and the prefixes tested, 0 after a refusal.
fn told(count: Result<Counted, Refusal>, tested: &mut u32) -> i64
    ensures number { result ≡ outcome_number (answer_is (λ x. x) count) }
    ensures prefixes { tested.new ≡ tested_in (answer_is (λ x. x) count) }
{
    *tested = count.map_or(0, |count| count.tested);
    count_number(count)
}

// How many points of the box are in the set, minus the number of a refusal, −1000 where the limit was spent.
#[unsafe(no_mangle)]
pub extern "C" fn pitsets_count(
    n: usize,
    set: &[u8],
    l1: i32,
    l2: i32,
    l3: i32,
    l4: i32,
    l5: i32,
    l6: i32,
    l7: i32,
    l8: i32,
    h1: i32,
    h2: i32,
    h3: i32,
    h4: i32,
    h5: i32,
    h6: i32,
    h7: i32,
    h8: i32,
    limit: u32,
    tested: &mut u32,
) -> i64
    ensures { CountHosted (count_bytes n set.now
        (l1 ∷ l2 ∷ l3 ∷ l4 ∷ l5 ∷ l6 ∷ l7 ∷ l8 ∷ []) (h1 ∷ h2 ∷ h3 ∷ h4 ∷ h5 ∷ h6 ∷ h7 ∷ h8 ∷ []) none limit)
        result tested.new }
{
    let count = counting::count(
        n,
        set,
        [l1, l2, l3, l4, l5, l6, l7, l8],
        [h1, h2, h3, h4, h5, h6, h7, h8],
        limit,
    );
    told(count, tested)
}

// The same, with the number of those that have each value of the axis in the lent table.
#[unsafe(no_mangle)]
pub extern "C" fn pitsets_counts(
    n: usize,
    set: &[u8],
    l1: i32,
    l2: i32,
    l3: i32,
    l4: i32,
    l5: i32,
    l6: i32,
    l7: i32,
    l8: i32,
    h1: i32,
    h2: i32,
    h3: i32,
    h4: i32,
    h5: i32,
    h6: i32,
    h7: i32,
    h8: i32,
    axis: usize,
    limit: u32,
    counts: &mut [u32],
    tested: &mut u32,
) -> i64
    ensures { CountsHosted (length counts.old)
        (counts_bytes n (length counts.old) set.now
        (l1 ∷ l2 ∷ l3 ∷ l4 ∷ l5 ∷ l6 ∷ l7 ∷ l8 ∷ []) (h1 ∷ h2 ∷ h3 ∷ h4 ∷ h5 ∷ h6 ∷ h7 ∷ h8 ∷ []) axis limit)
        result counts.new tested.new }
{
    let count = counting::counts(
        n,
        set,
        [l1, l2, l3, l4, l5, l6, l7, l8],
        [h1, h2, h3, h4, h5, h6, h7, h8],
        axis,
        limit,
        counts,
    );
    told(count, tested)
}
