//! The laws. Each holds for all settings and all lists of events, letters lost, repeated and reordered at will.
ghost use Rattle.directory_rules.specs.Headline.{Headline, MovesPlainly, AfterAnyEvents};
ghost use Rattle.directory_headline.specs.Refined.{IsRefined};

/// Every event is a list of allowed actions of the abstract protocol: after any list of events such actions reach a world
/// that shows the rule's.
pub fn events_are_actions()
    ensures { AfterAnyEvents IsRefined }
{}

/// The headline. Rings are sorted anew; the table of a settled hash has each firm activation, and otherwise only
/// activations that live silos hold, one a grain; what isn't settled answers by a retry; no grain has two firm activations;
/// and at most one silo has a hash settled.
pub fn headline_holds()
    ensures { AfterAnyEvents Headline }
{}

/// Seen from outside, each event that is accepted is one step of the plain machine.
pub fn events_are_plain_steps()
    ensures { AfterAnyEvents MovesPlainly }
{}
