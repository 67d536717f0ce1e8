ghost use Rattle.std.specs.Prelude.{◌≡◌, ◌↔◌, IsTrue};
ghost use Rattle.range_moves.specs.Moves.{move_of};

use ring_range::RingRange;
use silo_address::SiloAddress;

/// Hashes that one silo owned before and one owns after, of two rings; `None` where a ring has no point.
#[derive(Clone, Copy, PartialEq, Eq)]
pub struct RingArc {
    /// From one place of the rings to the next.
    pub range: RingRange,
    /// Who owned them before.
    pub from: Option<SiloAddress>,
    /// Who owns them after.
    pub to: Option<SiloAddress>,
}

/// An arc that another silo owns after than before.
#[derive(Clone, Copy, PartialEq, Eq)]
pub struct Move {
    /// The hashes that move.
    pub range: RingRange,
    /// Who owned them before; `None` where the old ring has no point.
    pub from: Option<SiloAddress>,
    /// Who owns them after.
    pub to: SiloAddress,
}

impl RingArc {
    /// Whether the two are the same arc.
    pub fn same(&self, other: &RingArc) -> bool
        ensures { IsTrue result ↔ (self.now ≡ other.now) }
    {
        self == other
    }

    /// The arc as a move, if it has an owner after that is another silo than before.
    pub fn moved(&self) -> Option<Move>
        ensures { result ≡ move_of self.now }
    {
        let to = self.to?;
        if self.from == Some(to) {
            return None;
        }
        Some(Move {
            range: self.range,
            from: self.from,
            to,
        })
    }

    /// The same arc.
    pub fn copy(&self) -> RingArc
        ensures { result ≡ self.now }
    {
        *self
    }
}

impl Move {
    /// Whether the two are the same move.
    pub fn same(&self, other: &Move) -> bool
        ensures { IsTrue result ↔ (self.now ≡ other.now) }
    {
        self == other
    }

    /// The same move.
    pub fn copy(&self) -> Move
        ensures { result ≡ self.now }
    {
        *self
    }
}
