ghost use Rattle.std.specs.Prelude.{◌≡◌};
ghost use Rattle.process_answers.specs.ProcessSettings.{process_settings};

use directory_rules::Settings;

/// How many silos a process may know: 2^62 - 1, so that memory alone bounds them.
const MOST_SILOS: usize = (1 << 62) - 1;

/// The settings of a silo's process: those given, but that memory alone bounds the silos that it knows
/// (`docs/RULES.md#settings`).
pub fn process_settings(settings: Settings) -> Settings
    ensures { result ≡ process_settings settings }
{
    match settings.with_silos(MOST_SILOS) {
        Some(settings) => settings,
        None => unreachable!(),
    }
}
