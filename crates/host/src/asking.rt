// Whether a point is in a set.
ghost use Rattle.std.specs.Prelude.{◌≡◌, [], ◌∷◌};
ghost use Rattle.query.specs.Member.{member_bytes};
ghost use Rattle.answers.specs.Numbers.{member_number};

use answers::member_number;

// 1 where the point is in the set, 0 where it is not, minus the number of a refusal.
#[unsafe(no_mangle)]
pub extern "C" fn pitsets_member(
    n: usize,
    set: &[u8],
    x1: i32,
    x2: i32,
    x3: i32,
    x4: i32,
    x5: i32,
    x6: i32,
    x7: i32,
    x8: i32,
) -> i64
    ensures { result ≡ member_number (member_bytes n set.now (x1 ∷ x2 ∷ x3 ∷ x4 ∷ x5 ∷ x6 ∷ x7 ∷ x8 ∷ [])) }
{
    member_number(query::member(n, set, [x1, x2, x3, x4, x5, x6, x7, x8]))
}
