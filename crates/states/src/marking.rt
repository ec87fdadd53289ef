// Marking the state under a name, and going back to one.
ghost use Rattle.std.specs.Prelude.{◌≡◌};
ghost use Rattle.memory.specs.Memory.{memory};
ghost use Rattle.states.specs.Calls.{word_is, said_is, stepped, said_of, mark_step, back_step};

use crate::Said;
use memory::ranks::{forget_after, mark_newest};
use memory::slots::{copy_slot, fits};
use memory::sound::is_word;
use model::{Refusal, limit};

pub fn said_of(w: usize) -> Said
    ensures { word_is result ≡ said_of w }
{
    match w {
        1 => Said::Point,
        2 => Said::Empty,
        3 => Said::Wide,
        4 => Said::Long,
        _ => Said::Misused,
    }
}

pub fn mark(
    name: usize,
    rows: &mut [[u64; 36]],
    place: &mut [usize],
    kinds: &mut [u8],
    heads: &mut [usize],
) -> Result<Said, Refusal>
    ensures { stepped (said_is result) (memory rows.new place.new kinds.new heads.new) ≡ mark_step name (memory rows.old place.old kinds.old heads.old) }
{
    if limit::NAME < name {
        return Err(Refusal::BadName);
    }
    if !fits(rows, place, kinds, heads) {
        return Ok(Said::Misused);
    }
    let w = heads[4];
    if !is_word(w) {
        return Ok(Said::Misused);
    }
    copy_slot(0, name + 1, rows, place, kinds, heads);
    mark_newest(heads, name);
    Ok(said_of(w))
}

pub fn back(
    name: usize,
    rows: &mut [[u64; 36]],
    place: &mut [usize],
    kinds: &mut [u8],
    heads: &mut [usize],
) -> Result<Said, Refusal>
    ensures { stepped (said_is result) (memory rows.new place.new kinds.new heads.new) ≡ back_step name (memory rows.old place.old kinds.old heads.old) }
{
    if limit::NAME < name {
        return Err(Refusal::BadName);
    }
    if !fits(rows, place, kinds, heads) {
        return Ok(Said::Misused);
    }
    let rank = heads[85 + name];
    if rank == 0 {
        return Err(Refusal::BadName);
    }
    let w = heads[5 * (name + 1) + 4];
    if !is_word(w) {
        return Ok(Said::Misused);
    }
    copy_slot(name + 1, 0, rows, place, kinds, heads);
    forget_after(heads, rank);
    Ok(said_of(w))
}
