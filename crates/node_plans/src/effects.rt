//! What steps tell (`docs/RULES.md#effects`).
ghost use Rattle.std.specs.Prelude.{◌≡◌, if◌then◌else◌};
ghost use Rattle.directory_rules.specs.Receive.{reply_effect};
ghost use Rattle.directory_rules.specs.declared.Effect.TheVariants.{Next, Offered, Skip};

use directory_rules::{Effect, Reply};
use silo_address::{Entry, SiloAddress};

/// What a sight tells: whether the view was the next one after that seen.
pub fn seen_effect(next: bool) -> Effect
    ensures { result ≡ (if next then Next else Skip) }
{
    if next { Effect::Next } else { Effect::Skip }
}

/// What a silo tells of a request that it answers so.
pub fn reply_effect(reply: &Reply) -> Effect
    ensures { result ≡ reply_effect reply.now }
{
    match reply {
        Reply::Registered(_) => Effect::Registered,
        Reply::Taken(_) => Effect::Taken,
        Reply::Removed => Effect::Removed,
        Reply::Absent => Effect::Absent,
        Reply::Found(_) => Effect::Found,
        Reply::Nothing => Effect::Nothing,
        Reply::Retry(why) => Effect::Retry(*why),
    }
}

/// What a silo tells that offers the entry to another silo.
pub fn offer_effect(entry: &Entry, to: &SiloAddress) -> Effect
    ensures { result ≡ Offered entry.now to.now }
{
    Effect::Offered {
        entry: *entry,
        to: *to,
    }
}
