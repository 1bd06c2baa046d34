// The finest settings, and number 18.
ghost use Rattle.std.specs.Prelude.{◌≡◌};
ghost use Rattle.section.specs.profile.Numbers.{refused_by};
ghost use Rattle.section.specs.profile.Refusals.{refusal};
ghost use Rattle.walk.specs.settings.Settings as settings;

use super::shapes::Settings;
use section::Refusal;

// Those of every call that takes none.
pub fn finest() -> Settings
    ensures { result ≡ settings.finest }
{
    Settings {
        tolerance: 1e-9,
        most: 8192,
        intervals: 16,
    }
}

// Number 18: a setting is out of range or not finite.
#[tactic(auto, unfolding(section::specs::profile::Refusals::refusal))]
pub fn settings_refusal(t: Settings) -> Result<(), Refusal>
    ensures { refused_by result ≡ refusal (settings.settings_tests t) }
{
    if !(t.tolerance >= 1e-9 && t.tolerance <= 1.0) {
        return Err(Refusal::BadSettings);
    }
    if t.most < 1 || 8192 < t.most || t.intervals < 1 || 64 < t.intervals {
        return Err(Refusal::BadSettings);
    }
    Ok(())
}
