ghost use Rattle.std.specs.Prelude.{◌≡◌, IfOk};

use crate::{Blocks, Names};
use cluster_journal::{Front, JournalEntry, LogName, NewLog};
use directory_node::SharedNode;
use silo_address::SiloAddress;
use std::alloc::{AllocError, Global};
use std::marker::{Brand, Model, PhantomData};
use std::sync::ledger::{Blank, Ledger, Share};

/// Which board it is: the settings of its cluster, its ledger, the marks of its nodes and the log of its journal.
pub trait Charter: Ledger + Names + LogName {
    ghost use Rattle.directory_rules.specs.Settings.{Settings};

    ghost settings: { Settings };
}

impl Charter for Brand {
    ghost use Rattle.directory_rules.specs.Settings.{directory_settings};
    ghost use Rattle.hash_ring.specs.declared.hashing.Hashing.TheVariants.{Sha256};

    ghost settings = { directory_settings Sha256 1 0 };
}

/// What a board is made of that its type names: a blank ledger, blocks for marks, and a log without entries.
#[derive(Drop)]
pub struct Tokens {
    pub ledger: Blank,
    pub marks: Blocks<SharedNode>,
    pub log: NewLog<JournalEntry>,
}

impl Tokens {
    /// Tokens of one board: a ledger of so many parts, and room for so many blocks of marks. Fails only when memory runs out.
    pub fn new(alloc: Global, parts: u64, blocks: usize) -> Result<Tokens, AllocError>
        ensures { IfOk result (λ tokens. tokens.ledger.parts ≡ parts) }
    {
        let marks = Blocks::new(alloc, blocks)?;
        let log = NewLog::new(alloc)?;
        Ok(Tokens {
            ledger: Blank::new(parts),
            marks,
            log,
        })
    }
}

/// What whoever posts or commits has of a board: a part of its ledger's share, and what was seen of its journal, which is a
/// beginning of it for ever (`docs/RULES.md#the-board`).
#[derive(Drop)]
pub struct Hand<L: Charter> {
    pub share: Share<L>,
    pub seen: Front<JournalEntry, L>,
}

/// Shows that a board let a silo's worker go: that it dismissed it, or knows that it gave up. A board alone can make it, the one that
/// its type names.
#[derive(Drop)]
pub struct Dismissal<L: Charter> {
    pub(crate) silo: SiloAddress,
    pub(crate) gave_up: bool,
    pub(crate) board: PhantomData<L>,
}

impl<L: Charter> Model for Dismissal<L> {
    ghost use Rattle.cluster_board.specs.Due.{DismissalValue};

    ghost Value = { DismissalValue };

    ghost view = { λ d. record { silo = d.silo; gave_up = d.gave_up } };
}
