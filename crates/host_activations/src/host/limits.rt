ghost use Rattle.std.specs.Prelude.{◌≡◌, length};
ghost use Rattle.directory_rules.specs.Host.{has_count, has_numbers, is_full_of_activations, is_full_of_finds, outstanding};

use super::Host;
use directory_rules::Settings;

impl Host {
    /// Whether the host has as many activations as it may hold.
    pub fn is_full_of_activations(&self, settings: &Settings) -> bool
        ensures { result ≡ is_full_of_activations settings.now self.now }
    {
        settings.activations() <= self.held.len()
    }

    /// Whether the host has as many finds outstanding as it may have.
    pub fn is_full_of_finds(&self, settings: &Settings) -> bool
        ensures { result ≡ is_full_of_finds settings.now self.now }
    {
        settings.finds() <= self.outstanding.find_count()
    }

    /// Whether the host may take so many more request numbers.
    pub fn has_numbers(&self, settings: &Settings, taken: u64) -> bool
        ensures { result ≡ has_numbers settings.now self.now taken }
    {
        settings.in_range();
        let end = settings.last_number() + 1;
        self.next_number <= end && taken <= end - self.next_number
    }

    /// Whether the host may take another count.
    pub fn has_count(&self, settings: &Settings) -> bool
        ensures { result ≡ has_count settings.now self.now }
    {
        self.held.next_count() <= settings.last_number()
    }

    /// How many requests the host has outstanding, finds among them.
    pub fn outstanding_count(&self) -> usize
        ensures { result ≡ length (outstanding self.now) }
    {
        self.outstanding.len()
    }
}
