// A verdict in its place: 1 collision, 0 clear.
ghost use Rattle.bodies.specs.verdicts.Verdicts.{told};
ghost use Rattle.capi.specs.handing.Interface.{Gives, mark};

use bodies::Verdict;
use section::Refusal;

// Puts a verdict into its place, and gives the number of a refusal.
pub fn judge(verdict: Result<Verdict, Refusal>, collision: &mut u32) -> u32
    ensures { Gives mark (told verdict) result collision.old collision.new }
{
    match verdict {
        Ok(Verdict::Clear) => {
            *collision = 0;
            0
        }
        Ok(Verdict::Collision) => {
            *collision = 1;
            0
        }
        Err(refusal) => refusal.number(),
    }
}
