// One look at each number that is given, enough where none of 4, 5 and 6 applies.
ghost use Rattle.std.specs.Prelude.{◌≡◌, true};
ghost use Rattle.section.specs.profile.Steps.{VertexFine, SectionFine, NumbersFine};

use super::refusal::any_beyond_limit;

fn vertex_fine(z: f64, r: f64) -> bool
    ensures { result ≡ true → VertexFine z r }
{
    if arith::abs(z) <= 1048576.0 {
        if arith::abs(r) <= 1048576.0 {
            if r < -1e-9 {
                return false;
            }
            return true;
        }
    }
    false
}

// All numbers of the section are within the limit, and no radius is below -1e-9.
fn section_fine(s: &[f64]) -> bool
    ensures { result ≡ true → SectionFine s.now }
{
    if s.len() % 2 == 1 {
        return false;
    }
    let n = s.len() / 2;
    for k in 0..n {
        if !vertex_fine(s[k * 2], s[k * 2 + 1]) {
            return false;
        }
    }
    true
}

// So are a body's numbers and more that are given: none of 4, 5 and 6 applies.
pub fn numbers_fine(s: &[f64], numbers: &[f64], extra: &[f64]) -> bool
    ensures { result ≡ true → NumbersFine s.now numbers.now extra.now }
{
    if section_fine(s) {
        if any_beyond_limit(numbers) {
            return false;
        }
        if any_beyond_limit(extra) {
            return false;
        }
        return true;
    }
    false
}
