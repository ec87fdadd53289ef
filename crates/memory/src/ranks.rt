// The ranks of the 16 names: 0 for one that is not marked, else its place in time among the marks, from 1 for the oldest.
ghost use Rattle.std.specs.Prelude.{◌≡◌, map, ◌≤◌, ◌<◌, length};
ghost use Rattle.memory.specs.Memory.{with_ranks, fallen, forgotten, marks as marks_of, newest as newest_of};

// Where the name of rank `old` is marked anew, those after it fall by one.
fn lower(ranks: &mut [usize], old: usize)
    ensures { ranks.new ≡ map (fallen old) ranks.old }
{
    for rank in ranks.iter_mut() {
        if old != 0 && old < *rank {
            *rank -= 1;
        }
    }
}

// The marks made after that rank are forgotten; after 0 all.
fn forget(ranks: &mut [usize], last: usize)
    ensures { ranks.new ≡ map (forgotten last) ranks.old }
{
    for rank in ranks.iter_mut() {
        if last < *rank {
            *rank = 0;
        }
    }
}

// How many names are marked.
fn marks(ranks: &[usize]) -> usize
    ensures { (result ≡ marks_of ranks.now) × (result ≤ length ranks.now) }
{
    ranks.iter().filter(|rank| **rank != 0).count()
}

// The name becomes the newest mark, wherever it was.
fn newest(ranks: &mut [usize], name: usize)
    requires { (name < length ranks.old) × (length ranks.old ≤ 16) }
    ensures { ranks.new ≡ newest_of name ranks.old }
{
    let old = ranks[name];
    ranks[name] = 0;
    lower(ranks, old);
    ranks[name] = marks(ranks) + 1;
}

// So among the ranks behind the heads.
pub fn mark_newest(heads: &mut [usize], name: usize)
    requires { (length heads.old ≡ 101) × (name < 16) }
    ensures { heads.new ≡ with_ranks (newest_of name) heads.old }
{
    newest(&mut heads[85..], name);
}

pub fn forget_after(heads: &mut [usize], rank: usize)
    requires { length heads.old ≡ 101 }
    ensures { heads.new ≡ with_ranks (map (forgotten rank)) heads.old }
{
    forget(&mut heads[85..], rank);
}
