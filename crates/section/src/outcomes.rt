// What a caller of the tests is told.
ghost use Rattle.std.specs.Prelude.{◌≡◌, ℕ, ltb};
ghost use Rattle.section.specs.profile.Numbers.{refused_by};

use crate::Refusal;

// Nothing was turned down, or under which number: a result with its refusal, or a number alone, 0 for none, which may be one of
// the caller's own.
pub trait Outcome: Copy {
    ghost number: { Self → ℕ };

    fn of(tested: Result<(), Refusal>) -> Self
        ensures { number result ≡ refused_by tested };

    fn is_refused(self) -> bool
        ensures { result ≡ ltb 0 (number self) };
}

impl Outcome for Result<(), Refusal> {
    ghost number = { refused_by };

    fn of(tested: Result<(), Refusal>) -> Result<(), Refusal> {
        tested
    }

    fn is_refused(self) -> bool {
        self.is_err()
    }
}

impl Outcome for u32 {
    ghost number = { λ n. n };

    fn of(tested: Result<(), Refusal>) -> u32 {
        match tested {
            Ok(()) => 0,
            Err(refusal) => refusal.number(),
        }
    }

    fn is_refused(self) -> bool {
        0 < self
    }
}
