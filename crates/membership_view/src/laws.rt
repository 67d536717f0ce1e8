//! What holds of all views. Each function here does nothing: its contract is a law about the definitions that the other contracts
//! use, for the proofs of crates above.
ghost use Rattle.membership_view.specs.Laws.{ChangesAreSteps, VersionsRise, VersionsFit, ViewsStart, ListingsAreKept, ViewsStay, ViewsAreKept, FirstIsEmpty, DeadStaysDead, RowsStay, JoinedFrom, OneIsLive, NewestIs, OccupantIs, StepsAreChanges, ViewsSayStatuses, ViewsSayNoMore};
ghost use Rattle.membership_view.specs.Worked.{WorkedChanges};

/// Each accepted change makes the next version, and is one membership step from the current view to the next one. Every earlier
/// view stays as it was. The invariant of all views holds before any change, and after each.
pub fn changes_are_steps()
    ensures rises { VersionsRise }
    ensures steps { ChangesAreSteps }
    ensures views_stay { ViewsStay }
    ensures start { ViewsStart }
    ensures kept { ViewsAreKept }
    ensures fits { VersionsFit }
{}

/// The invariant of all views holds where they begin with a later version, and as silos are listed there.
pub fn beginnings_are_whole()
    ensures start { ViewsStart }
    ensures kept { ListingsAreKept }
{}

/// A view says of each silo what its row says, though it leaves out the Dead of whose endpoints it lists newer silos; and of no other silo
/// that it was there, but that those are Dead which a newer one of their endpoint has outlived.
pub fn views_say_statuses()
    ensures says { ViewsSayStatuses }
    ensures no_more { ViewsSayNoMore }
{}

/// From view to view a silo's row never goes, and a silo that is Dead stays Dead. It is in the views from the version in which it
/// joined on. Nobody is in the first view.
pub fn rows_stay()
    ensures first { FirstIsEmpty }
    ensures joined { JoinedFrom }
    ensures rows { RowsStay }
    ensures dead { DeadStaysDead }
{}

/// In each view, at most one silo of an endpoint isn't Dead.
pub fn one_is_live()
    ensures { OneIsLive }
{}

/// What a join looks for, in terms of silos and statuses: whether every silo of its endpoint that ever joined has a lower
/// generation, and which silo of its endpoint is in the current view and isn't Dead.
pub fn joins_look_for()
    ensures newest { NewestIs }
    ensures occupant { OccupantIs }
{}

/// Each membership step from the current view is an accepted change, unless it is a join for which there is no room.
pub fn steps_are_changes()
    ensures { StepsAreChanges }
{}

/// One run of changes, worked out.
pub fn changes_compute()
    ensures { WorkedChanges }
{}
