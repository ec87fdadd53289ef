// Stepping back: the state of a plan with its marks, in four tables of the caller's.
ghost use Rattle.memory.specs.Memory.{memory};
ghost use Rattle.states.specs.Calls.{start_step, add_step, mark_step, back_step};
ghost use Rattle.answers.specs.Numbers.{rule_by, StateHosted};

use answers::said_number;
use model::limit;
use rules::Rule;

// 1 point, 2 empty, 3 wide, 4 long, 0 where the tables have no state, or minus the number of a refusal.
#[unsafe(no_mangle)]
pub extern "C" fn pitsets_state_start_in(
    n: usize,
    divisions: &[i32],
    rows: &mut [[u64; 36]],
    place: &mut [usize],
    kinds: &mut [u8],
    heads: &mut [usize],
) -> i64
    ensures { StateHosted
        (start_step n divisions.now (memory rows.old place.old kinds.old heads.old))
        result (memory rows.new place.new kinds.new heads.new) }
{
    said_number(states::start(n, divisions, rows, place, kinds, heads))
}

#[unsafe(no_mangle)]
pub extern "C" fn pitsets_state_add_in(
    equality: bool,
    constant: i32,
    axes: &[i32; limit::AXES],
    divisions: &[i32; limit::DIVISIONS],
    rows: &mut [[u64; 36]],
    place: &mut [usize],
    kinds: &mut [u8],
    heads: &mut [usize],
) -> i64
    ensures { StateHosted
        (add_step (rule_by equality constant axes.now divisions.now) (memory rows.old place.old kinds.old heads.old))
        result (memory rows.new place.new kinds.new heads.new) }
{
    let rule = Rule {
        equality,
        constant,
        axes: *axes,
        divisions: *divisions,
    };
    said_number(states::add(rule, rows, place, kinds, heads))
}

#[unsafe(no_mangle)]
pub extern "C" fn pitsets_state_mark_in(
    name: usize,
    rows: &mut [[u64; 36]],
    place: &mut [usize],
    kinds: &mut [u8],
    heads: &mut [usize],
) -> i64
    ensures { StateHosted
        (mark_step name (memory rows.old place.old kinds.old heads.old))
        result (memory rows.new place.new kinds.new heads.new) }
{
    said_number(states::mark(name, rows, place, kinds, heads))
}

#[unsafe(no_mangle)]
pub extern "C" fn pitsets_state_back_in(
    name: usize,
    rows: &mut [[u64; 36]],
    place: &mut [usize],
    kinds: &mut [u8],
    heads: &mut [usize],
) -> i64
    ensures { StateHosted
        (back_step name (memory rows.old place.old kinds.old heads.old))
        result (memory rows.new place.new kinds.new heads.new) }
{
    said_number(states::back(name, rows, place, kinds, heads))
}
