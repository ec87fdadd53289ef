// A slot is copied with the rows of its table, so that every number of a state is one that it was marked with.
ghost use Rattle.std.specs.Prelude.{◌≡◌, ◌≤◌};
ghost use Rattle.memory.specs.Memory.{memory, fitting, slot_copied, Fits};

// Whether the tables have their lengths.
pub fn fits(rows: &[[u64; 36]], place: &[usize], kinds: &[u8], heads: &[usize]) -> bool
    ensures { result ≡ fitting (memory rows.now place.now kinds.now heads.now) }
{
    rows.len() == 1088 && place.len() == 1360 && kinds.len() == 1360 && heads.len() == 101
}

pub fn copy_slot(
    from: usize,
    to: usize,
    rows: &mut [[u64; 36]],
    place: &mut [usize],
    kinds: &mut [u8],
    heads: &mut [usize],
)
    requires { Fits (memory rows.old place.old kinds.old heads.old) × (from ≤ 16) × (to ≤ 16) × (from ≡ to → ⊥) }
    ensures { memory rows.new place.new kinds.new heads.new ≡ slot_copied from to (memory rows.old place.old kinds.old heads.old) }
{
    let used = heads[5 * from + 3].min(64);
    rows.copy_within(64 * from..64 * from + used, 64 * to);
    place.copy_within(80 * from..80 * from + 80, 80 * to);
    kinds.copy_within(80 * from..80 * from + 80, 80 * to);
    heads.copy_within(5 * from..5 * from + 5, 5 * to);
}
