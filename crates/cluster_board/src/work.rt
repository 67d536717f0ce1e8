ghost use Rattle.std.specs.Prelude.{◌≡◌, MatchResult, OnErr, length};
ghost use Rattle.directory_rules.specs.Receive.{received};
ghost use Rattle.directory_node.specs.Plans.{answer_count};

use crate::{Mark, Names};
use directory_letters::Letter;
use directory_node::{Plan, SharedNode};
use silo_address::SiloAddress;
use std::alloc::Global;
use std::marker::Model;

/// A letter and the node of its receiver, as a board lent them. A job is prepared or given back: it can't be dropped
/// (`docs/RULES.md#the-board`).
pub struct Job<N: Names> {
    pub(crate) number: u64,
    pub(crate) letter: Letter,
    pub(crate) node: SharedNode,
    // A mark of the node, by which the board sees at once that it still has that node.
    pub(crate) mark: Option<Mark<SharedNode, N>>,
}

impl<N: Names> Model for Job<N> {
    ghost use Rattle.std.specs.Prelude.{◌≡◌, IfSome};
    ghost use Rattle.cluster_board.specs.Work.{Work};

    ghost Value = { Work };

    ghost view = { λ j. record { number = j.number; letter = j.letter; node = j.node } };

    ghost invariant = { λ j. IfSome j.mark (λ node. node ≡ j.node) };
}

impl<N: Names> Job<N> {
    /// The letter's number.
    pub fn number(&self) -> u64
        ensures { result ≡ self.now.number }
    {
        self.number
    }

    /// The letter.
    pub fn letter(&self) -> &Letter
        ensures { result.now ≡ self.now.letter }
    {
        &self.letter
    }

    /// The silo whose node it is.
    pub fn silo(&self) -> SiloAddress
        ensures { result ≡ self.now.letter.to }
    {
        self.letter.to()
    }

    /// The silo's step with the letter, planned: for this no board is needed. The job comes back only where memory runs out
    /// (`docs/RULES.md#memory`).
    pub fn prepare(self, alloc: Global) -> Result<Prepared<N>, Job<N>>
        ensures work { MatchResult result (λ prepared. prepared ≡ self) (λ job. job ≡ self) }
        ensures memory { OnErr result (length (received self.node self.letter).letters ≡ answer_count self.node self.letter self.letter.body) }
    {
        match self.node.node().plan_letter(alloc, &self.letter) {
            Ok(plan) => Ok(Prepared { job: self, plan }),
            Err(_) => Err(self),
        }
    }

    /// The job is given back: nothing came of it, and the letter can be lent again.
    pub fn give_back(self) {
        let Job {
            number: _,
            letter: _,
            node: _,
            mark: _,
        } = self;
    }
}

/// Work with the plan of its node's step with its letter. It is committed, or turned back into its job: it can't be dropped
/// (`docs/RULES.md#the-board`).
pub struct Prepared<N: Names> {
    pub(crate) job: Job<N>,
    pub(crate) plan: Plan,
}

impl<N: Names> Model for Prepared<N> {
    ghost use Rattle.cluster_board.specs.Work.{Work};
    ghost use Rattle.cluster_board.specs.Planned.{IsPlanOf};

    ghost Value = { Work };

    ghost view = { λ p. p.job };

    ghost invariant = { λ p. IsPlanOf p.job p.plan };
}

impl<N: Names> Prepared<N> {
    /// The job that was prepared: its plan is dropped.
    pub fn back(self) -> Job<N>
        ensures { result ≡ self }
    {
        let Prepared { job, plan: _ } = self;
        job
    }
}
