ghost use Rattle.std.specs.Prelude.{◌≡◌};
ghost use Rattle.silo_rules.specs.Told.{news_of};

use silo_address::SiloAddress;

/// What a silo answers to a change of membership that it is told (`docs/RULES.md#a-silo-by-itself`).
#[derive(Clone, Copy)]
pub enum News {
    /// It knew the change: nothing changes.
    Known,
    /// It knows one version more.
    Made,
    /// It knows one version more, in which a silo joined and this older one of its endpoint became Dead.
    Replaced(SiloAddress),
}

impl News {
    /// The news of a change that was made, by which this silo was replaced, if one was.
    pub fn of_change(replaced: Option<SiloAddress>) -> News
        ensures { result ≡ news_of replaced }
    {
        match replaced {
            Some(old) => News::Replaced(old),
            None => News::Made,
        }
    }
}
