// The count of what a builder keeps, in its place.
ghost use Rattle.section.specs.profile.Replies.{told};
ghost use Rattle.capi.specs.handing.Interface.{Gives};

use section::Refusal;

// Puts the count of kept numbers into its place, and gives the number of a refusal.
pub fn give_count(answer: Result<usize, Refusal>, kept: &mut usize) -> u32
    ensures { Gives (λ n. n) (told answer) result kept.old kept.new }
{
    match answer {
        Ok(n) => {
            *kept = n;
            0
        }
        Err(refusal) => refusal.number(),
    }
}
