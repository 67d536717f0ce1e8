//! Wrong protocols: in each a single step is wrong, for its guard lacks a condition or its effect is another, and a
//! promise is broken. Each law is shown by a run of allowed actions with that one step among them.

ghost use Rattle.directory_protocol.specs.Safety.{OneSettles, SettledIsRight, OneFirm};
ghost use Rattle.directory_protocol.specs.Loosened.{Breaks, SealedPieceStillServes, SkipKeepsPiecesNotOwned, RequestNumbersNotCompared, RegisterOverwrites, PreviousReplacesAnyEntry, DeregisterIgnoresTheActivation, StaleReplyAccepted, RecoveryCompletesAtFirstReport, FirstPageCompletes, PagesByNumber, OfferStartsAtALaggingSilo};
ghost use Rattle.directory_protocol.specs.WrongSteps.{QueryAnsweredAtAnotherVersion, SkippedVersionStillReports, ReportHasAskingActivations, RecoveryDropsFirmActivations, SnapshotKeepsDeadSilos, OfferLeavesFirm, CancelForgetsTheActivation, CancelHasAnOlderNumber};

/// A silo keeps settled what it seals for the next owner: the hash is settled at two silos.
pub fn sealed_piece_still_serves()
    ensures { Breaks SealedPieceStillServes OneSettles }
{}

/// A silo that skips versions keeps what it owns no more: the hash is settled at two silos.
pub fn skip_keeps_pieces_not_owned()
    ensures { Breaks SkipKeepsPiecesNotOwned OneSettles }
{}

/// A silo reports at a version that it skipped: the hash is settled at two silos, at two versions.
pub fn skipped_version_still_reports()
    ensures { Breaks SkippedVersionStillReports OneSettles }
{}

/// A silo reports at a version that it hasn't seen yet: what then becomes firm on it isn't in the recovered table.
pub fn query_answered_at_another_version()
    ensures { Breaks QueryAnsweredAtAnotherVersion SettledIsRight }
{}

/// A recovery ends with the report of one member: another's firm activation isn't in the table.
pub fn recovery_completes_at_first_report()
    ensures { Breaks RecoveryCompletesAtFirstReport SettledIsRight }
{}

/// A recovery ends with the first page of each report: a firm activation that stands on a later one isn't in the table.
pub fn first_page_completes()
    ensures { Breaks FirstPageCompletes SettledIsRight }
{}

/// Pages are asked for by number, not behind what was told: an activation closes between two pages, and the next one, which
/// moves up by one, isn't in the table.
pub fn pages_by_number()
    ensures { Breaks PagesByNumber SettledIsRight }
{}

/// A report names an activation that asks, too: the table has it in place of the firm one.
pub fn report_has_asking_activations()
    ensures { Breaks ReportHasAskingActivations SettledIsRight }
{}

/// A silo that reports drops its activations: the table has one that its silo doesn't hold.
pub fn recovery_drops_firm_activations()
    ensures { Breaks RecoveryDropsFirmActivations SettledIsRight }
{}

/// A sight keeps entries on silos that are dead in its view: a settled table has one at the current version.
pub fn snapshot_keeps_dead_silos()
    ensures { Breaks SnapshotKeepsDeadSilos SettledIsRight }
{}

/// A registration is served again under its old number: the table has an activation that its silo doesn't hold.
pub fn request_numbers_not_compared()
    ensures { Breaks RequestNumbersNotCompared SettledIsRight }
{}

/// A reply is accepted whatever its number: a firm activation isn't in the table.
pub fn stale_reply_accepted()
    ensures { Breaks StaleReplyAccepted SettledIsRight }
{}

/// A registration overwrites another's entry: two activations of the grain are firm.
pub fn register_overwrites()
    ensures { Breaks RegisterOverwrites OneFirm }
{}

/// A registration that names a previous activation replaces whatever entry is there: two activations are firm.
pub fn previous_replaces_any_entry()
    ensures { Breaks PreviousReplacesAnyEntry OneFirm }
{}

/// A deregistration takes out whatever entry is there: a firm activation isn't in the table.
pub fn deregister_ignores_the_activation()
    ensures { Breaks DeregisterIgnoresTheActivation SettledIsRight }
{}

/// An offered activation stays firm: so does the one that takes its place.
pub fn offer_leaves_firm()
    ensures { Breaks OfferLeavesFirm OneFirm }
{}

/// An offer is taken up by a silo that hasn't seen its version: a table recovered at that version has the offered
/// activation, and not the firm one that took its place.
pub fn offer_starts_at_a_lagging_silo()
    ensures { Breaks OfferStartsAtALaggingSilo SettledIsRight }
{}

/// A silo gives up an activation that asks, and holds it no more: its registration comes late, and the table has an activation
/// that its silo doesn't hold.
pub fn cancel_forgets_the_activation()
    ensures { Breaks CancelForgetsTheActivation SettledIsRight }
{}

/// A silo gives up an activation that asks under an older number: the registration is served after the deregistration, and the
/// table has an activation that its silo doesn't hold.
pub fn cancel_has_an_older_number()
    ensures { Breaks CancelHasAnOlderNumber SettledIsRight }
{}
