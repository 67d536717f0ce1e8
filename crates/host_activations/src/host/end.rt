ghost use Rattle.std.specs.Prelude.{◌≡◌, MatchOption};
ghost use Rattle.directory_rules.specs.Host.{asking_under, confirmed, without_find, without_held};
ghost use Rattle.host_activations.specs.Numbers.{number_of};
ghost use Rattle.std.specs.BTreeMap.{is_at};
ghost use Rattle.std.specs.Map.{remove_entry};
ghost use Rattle.std.specs.Ordering.{nat_cmp};

use super::Host;
use super::replies::find_under;
use crate::Activations;
use crate::asked::number_in;
use crate::outstanding::OutstandingRequests;
use directory_rules::Phase;
use silo_address::GrainId;

impl Host {
    /// The activation whose Register has the number is firm from now on. Where there is none, nothing changes.
    pub fn confirm(&mut self, number: u64)
        ensures { MatchOption (asking_under self.old number) (self.new ≡ self.old) (λ e. self.new ≡ confirmed self.old e.0 e.1) }
    {
        let Some(found) = self.asking_under(number) else {
            return;
        };
        let (grain, _) = found;
        self.outstanding.remove(number);
        self.held.set(&grain, Phase::Firm, None);
        self.held.whole();
    }

    /// The grain's activation goes, and with it the request that it has outstanding. Where there is none, nothing changes.
    pub fn end(&mut self, grain: &GrainId)
        ensures { self.new ≡ without_held self.old grain.now }
    {
        let number = number_of(&self.held, grain);
        free(&mut self.outstanding, number);
        self.held.end(grain);
        self.held.whole();
    }

    /// The find that has the number goes. Where there is none, nothing changes.
    pub fn end_find(&mut self, number: u64)
        ensures { self.new ≡ without_find self.old number }
    {
        let Some(_) = find_under(&self.outstanding, number) else {
            return;
        };
        self.outstanding.remove(number);
    }
}

// The number of the request that the grain's activation has outstanding.
pub(super) fn number_of(held: &Activations, grain: &GrainId) -> Option<u64>
    ensures { result ≡ number_of grain.now held.now.entries }
{
    match held.get(grain) {
        Some(held) => number_in(held.phase),
        None => None,
    }
}

// The number has nothing outstanding any more, if there is one.
pub(super) fn free(outstanding: &mut OutstandingRequests, number: Option<u64>)
    ensures { MatchOption number (outstanding.new.entries ≡ outstanding.old.entries) (λ taken. outstanding.new.entries ≡ remove_entry (is_at (nat_cmp taken)) outstanding.old.entries) }
{
    if let Some(number) = number {
        outstanding.remove(number);
    }
}
