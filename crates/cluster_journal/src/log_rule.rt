//! What the keeper of a log and its fronts know, and the steps by which they come to know more.
use atomic_table::{Join, Play, Split, TableRule};
use std::collections::LinkedList;

/// What is known of a log: by its keeper all of it, and what the keeper was told by a front; by a front a beginning. No value of it
/// is made.
pub struct Known<E> {
    pub keeps: bool,
    pub all: LinkedList<E>,
    pub told: LinkedList<E>,
}

/// The rule: the keeper knows all, and whatever anybody knows is a beginning of it.
pub struct OneLog;

impl<E> TableRule<E, Known<E>, ()> for OneLog {
    ghost use Rattle.std.specs.Prelude.{[]};
    ghost use Rattle.cluster_journal.specs.Log.{AreKept, keepers};

    ghost holds = { λ _. AreKept };

    ghost first = { λ _. keepers [] [] };
}

/// The keeper adds the entry that it announces.
pub struct Add;

impl<E> Play<E, Known<E>> for Add {
    ghost use Rattle.cluster_journal.specs.Log.{Adds};

    ghost then = { Adds };
}

/// The keeper compares what it was told with what it knows.
pub struct Compare;

impl<E> Play<E, Known<E>> for Compare {
    ghost use Rattle.cluster_journal.specs.Log.{Compares};

    ghost then = { Compares };
}

/// A front is made from what the keeper knows, or told to the keeper.
pub struct Share;

impl<E> Split<Known<E>> for Share {
    ghost use Rattle.cluster_journal.specs.Log.{fronts};

    ghost left = { λ known. known };

    ghost right = { λ known. fronts known.all };
}

impl<E> Join<Known<E>> for Share {
    ghost use Rattle.std.specs.Prelude.{[]};
    ghost use Rattle.cluster_journal.specs.Log.{fronts, informed};

    ghost both = { informed };

    ghost spent = { fronts [] };
}
