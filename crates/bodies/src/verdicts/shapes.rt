// The answer of a verdict.
ghost use Rattle.std.specs.Prelude.{◌≡◌};
ghost use Rattle.bodies.specs.verdicts.Verdicts.{is_collision};

#[derive(Clone, Copy, Debug, PartialEq, Eq)]
pub enum Verdict {
    Clear,
    Collision,
}

// True is a collision.
impl From<bool> for Verdict {
    ghost from_gives = { λ collides verdict. is_collision verdict ≡ collides };

    fn from(collides: bool) -> Verdict {
        if collides {
            Verdict::Collision
        } else {
            Verdict::Clear
        }
    }
}
