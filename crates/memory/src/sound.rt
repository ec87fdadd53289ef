// Whether the state's slot holds what the functions that go on from it ask.
ghost use Rattle.std.specs.Prelude.{◌≡◌, ◌+◌, ◌≤◌, T, pos, length, drop};
ghost use Rattle.std.specs.Int.Signed.{lt_z};
ghost use Rattle.model.specs.Lists.{all};
ghost use Rattle.model.specs.Sets.{is_zero};
ghost use Rattle.tableau.specs.Rows.{den};
ghost use Rattle.wide_tableau.specs.Cells.{cells, Sheet};
ghost use Rattle.model.specs.Limits.{most_divisions};
ghost use Rattle.memory.specs.Memory.{memory, Fits};
ghost use Rattle.memory.specs.Sound.{plain_cell, plain_words, sound_row, sound_place, is_word, sound_head, sound as sound_of};

use model::limit;

// Two words that are those of their number: 0 has one form, without a sign.
fn is_plain(h: u64, l: u64) -> bool
    ensures { result ≡ plain_cell h l }
{
    h != wide::SIGN || l != 0
}

fn all_plain(r: &[u64; 36]) -> bool
    ensures { result ≡ plain_words r.now }
{
    (0..18).all(|i| is_plain(r[2 * i], r[2 * i + 1]))
}

// Whether the numbers from place n on are 0.
fn is_blank(r: &[u64; 36], n: usize) -> bool
    requires { Sheet r.now }
    ensures { result ≡ all is_zero (drop n (cells r.now)) }
{
    (n..18).all(|i| wide::is_zero(wide_tableau::row::cell_at(r, i).magnitude))
}

// Whether the denominator is over 0.
fn is_over(r: &[u64; 36]) -> bool
    requires { Sheet r.now }
    ensures { result ≡ lt_z (pos 0) (den (cells r.now)) }
{
    let denominator = wide_tableau::row::cell_at(r, 0);
    wide::is_negative(wide::negate(denominator))
}

#[tactic(auto, using(crate::proofs::Sounds::plain_sheet), unfolding(crate::specs::Sound::sound_row))]
fn row_sound(r: &[u64; 36], n: usize) -> bool
    ensures { result ≡ sound_row n r.now }
{
    all_plain(r) && is_blank(r, n) && is_over(r)
}

fn rows_sound(t: &[[u64; 36]], n: usize) -> bool
    ensures { result ≡ all (sound_row n) t.now }
{
    t.iter().all(|r| row_sound(r, n))
}

// A row, or 64 and a column in use.
fn place_sound(k: usize, m: usize, p: usize) -> bool
    requires { k ≤ most_divisions }
    ensures { result ≡ sound_place k m p }
{
    p < m || 64 <= p && p < 72 + k
}

fn places_sound(place: &[usize], k: usize, m: usize) -> bool
    requires { k ≤ most_divisions }
    ensures { result ≡ all (sound_place k m) place.now }
{
    place.iter().all(|p| place_sound(k, m, *p))
}

pub fn is_word(w: usize) -> bool
    ensures { result ≡ is_word w }
{
    (1..=4).contains(&w)
}

fn head_sound(n: usize, k: usize, rules: usize, m: usize, w: usize) -> bool
    ensures { result ≡ sound_head n k rules m w }
{
    (1..=limit::AXES).contains(&n)
        && k <= limit::DIVISIONS
        && rules <= limit::CONSTRAINTS
        && m <= 2 * k + rules
        && is_word(w)
}

#[tactic(auto, using(crate::proofs::Sounds::headed), unfolding(crate::specs::Sound::sound))]
pub fn sound(rows: &[[u64; 36]], place: &[usize], kinds: &[u8], heads: &[usize]) -> bool
    requires { Fits (memory rows.now place.now kinds.now heads.now) }
    ensures { result ≡ sound_of (memory rows.now place.now kinds.now heads.now) }
{
    let k = heads[1];
    let m = heads[3];
    head_sound(heads[0], k, heads[2], m, heads[4])
        && rows_sound(&rows[..m], k + 10)
        && places_sound(&place[..limit::AXES + k + m], k, m)
}
