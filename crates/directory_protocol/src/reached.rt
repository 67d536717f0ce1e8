//! Nothing in the protocol is empty: what its guards allow really happens. Each law is shown by a run.

ghost use Rattle.directory_protocol.specs.Reached.{CanBe, CanHappen, TransfersEntry, RecoversEntry, KeepsOverSkip, FindsPlaceTaken, Migrates, RefusesOldNumber, GivesUpInTime, IgnoresStaleReply};

/// A snapshot brings an entry to the next owner.
pub fn transfer_brings_an_entry()
    ensures { CanHappen TransfersEntry }
{}

/// A recovery ends with an entry, once every member has reported.
pub fn recovery_brings_an_entry()
    ensures { CanHappen RecoversEntry }
{}

/// A silo that skips versions keeps an entry that it still owns.
pub fn skip_keeps_an_entry()
    ensures { CanHappen KeepsOverSkip }
{}

/// An activation becomes firm in the place of one that another silo offered.
pub fn offered_activation_moves()
    ensures { CanHappen Migrates }
{}

/// A second registration of a grain is answered by the entry that is there.
pub fn taken_place_is_answered()
    ensures { CanHappen FindsPlaceTaken }
{}

/// A registration that comes again after its activation closed is refused for its number alone.
pub fn old_number_is_refused()
    ensures { CanBe RefusesOldNumber }
{}

/// An activation that asks is given up. Its registration comes after the deregistration, and is refused for its number alone:
/// nothing is entered.
pub fn given_up_registration_comes_late()
    ensures { CanHappen GivesUpInTime }
{}

/// A reply of the seen version counts for no activation of its receiver, for its number is an older one.
pub fn stale_reply_is_ignored()
    ensures { CanBe IgnoresStaleReply }
{}
