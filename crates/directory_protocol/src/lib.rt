//! The abstract protocol of the grain directory, and its safety.
//!
//! The crate has no code. Its definitions are in `specs/`: membership views come, silos see them, hand ranges of hashes
//! over or recover them, and register activations, by letters that may be lost, repeated and reordered. Each function
//! below is a law: its contract holds of every sequence of views, every hash function and every list of actions.
#![tactic(auto)]

pub mod reached;
pub mod wrong;

ghost use Rattle.directory_protocol.specs.Setting.{Setting};
ghost use Rattle.directory_protocol.specs.World.{World};
ghost use Rattle.directory_protocol.specs.Actions.{Action};
ghost use Rattle.directory_protocol.specs.Safety.{AfterAnyRun, OneSettles, SettledIsRight, OneFirm, SealedOnce, SettledServesAlone, HistoriesUnread};
ghost use Rattle.directory_protocol.specs.PlainMachine.{StepsPlainly, FirmUntilClosed};

/// At most one live silo has a hash settled, over all versions.
pub fn one_silo_settles()
    ensures { AfterAnyRun OneSettles }
{}

/// The table of a settled hash has each activation that is firm on a live silo, and one entry a grain. What else it has
/// is held by its silo, if that is live; and at the current version it has only what is on live silos.
pub fn settled_tables_are_right()
    ensures { AfterAnyRun SettledIsRight }
{}

/// No grain has two firm activations on live silos.
pub fn no_two_firm()
    ensures { AfterAnyRun OneFirm }
{}

/// A hash is sealed once at a version: whoever takes it over finds one snapshot.
pub fn hashes_are_sealed_once()
    ensures { AfterAnyRun SealedOnce }
{}

/// Whatever isn't settled serves nothing: every answer is given by a live silo that has the hash settled, having seen
/// the version of the request.
pub fn unsettled_serves_nothing()
    ensures { (m : Setting) (w : World) (a : Action) → SettledServesAlone m w a }
{}

/// Seen from outside, the activations on live silos move by the plain machine alone: each action is the step that
/// `plain_step_of` names. In particular an activation becomes firm only where no other of its grain is firm.
pub fn every_action_is_plain()
    ensures { AfterAnyRun StepsPlainly }
{}

/// A firm activation ceases to be firm only where its own silo closes or offers it, or dies.
pub fn firm_until_closed()
    ensures { (m : Setting) (w : World) → FirmUntilClosed m w }
{}

/// The two histories of a world decide nothing: with any others the same actions are allowed, and make the same of all
/// the rest.
pub fn histories_are_not_read()
    ensures { (m : Setting) (w : World) (a : Action) → HistoriesUnread m w a }
{}
