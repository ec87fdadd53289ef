// What tells why a call is refused: a refusal, or its number alone.
ghost use Rattle.std.specs.Prelude.{◌≡◌, ℕ};
ghost use Rattle.model.specs.Refused as R;

use model::Refusal;

pub trait Numbered {
    ghost number_of: { Self → ℕ };

    fn number(self) -> u32
        ensures { result ≡ number_of self };
}

impl Numbered for Refusal {
    ghost number_of = { R.number_of };

    fn number(self) -> u32 {
        Refusal::number(self)
    }
}

impl Numbered for u32 {
    ghost number_of = { λ number. number };

    fn number(self) -> u32 {
        self
    }
}
