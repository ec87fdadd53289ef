// The command at the front of what has been read (document 01, "The script program"): 2, 15 and 3, in that order, end the script.
ghost use Rattle.std.specs.Prelude.{◌≡◌, cond, ◌+◌, ◌≤◌, ◌<◌, eqb, length};
ghost use Rattle.codec.specs.Refusing.{answer_is};
ghost use Rattle.session.specs.Script.{fixed_width, load_length, in_place};
ghost use Rattle.session.specs.Turns.{cut_off, front_of};

use model::Refusal;

// The bytes of a command by its first, a load's without those of its set; 0: unknown.
fn fixed_width(b: u8) -> usize
    ensures is { result ≡ fixed_width b }
    ensures small { result ≤ 70 }
{
    match b {
        0x00 => 1,
        0x10 => 2,
        0x40..=0x43 => 4,
        0x44 => 3,
        0x45 => 2,
        0x46 => 34,
        0x47 => 70,
        _ => 0,
    }
}

// `10` is the first command, and only the first.
fn in_place(axes: usize, b: u8) -> bool
    ensures { result ≡ in_place axes b }
{
    (axes == 0) == (b == 0x10)
}

// The length that a load gives, after its first four bytes.
fn load_length(b: u8, s: &[u8]) -> usize
    requires { b ≡ 0x40 → 4 ≤ length s.now }
    ensures is { result ≡ cond (eqb b 0x40) (load_length s.now) 0 }
    ensures small { result < 65536 }
{
    if b == 0x40 {
        return integers::u16_at(s, 2) as usize;
    }
    0
}

fn cut_off(ended: bool) -> Result<Option<usize>, Refusal>
    ensures { answer_is (λ w. w) result ≡ cut_off ended }
{
    if ended {
        return Err(Refusal::CutShort);
    }
    Ok(None)
}

// The bytes of the command at the front, none where more input is needed to tell; or why the script ends there.
pub fn next(axes: usize, s: &[u8], ended: bool) -> Result<Option<usize>, Refusal>
    ensures { answer_is (λ w. w) result ≡ front_of axes ended s.now }
{
    if s.is_empty() {
        return cut_off(ended);
    }
    let b = s[0];
    let w = fixed_width(b);
    if w == 0 {
        return Err(Refusal::UnknownCommand);
    }
    if !in_place(axes, b) {
        return Err(Refusal::OutOfPlace);
    }
    if s.len() < w {
        return cut_off(ended);
    }
    let l = w + load_length(b, s);
    if s.len() < l {
        return cut_off(ended);
    }
    Ok(Some(l))
}
