//! The rule of the log of rings, and the steps of it (`specs/Log.antt`).
use hash_ring::Ring;
use logbook::{Gain, Pen, Plain, Play, Rule};
use std::snapshot::Snapshot;

/// A ring in the log, and the cell that the next entry brings home. No value of it is made.
pub(crate) struct Entry {
    pub(crate) ring: Ring,
    pub(crate) cell: u64,
}

pub(crate) struct OneWriter;

impl Rule<Entry, u64> for OneWriter {
    ghost use Rattle.std.specs.Prelude.{[]};
    ghost use base.Fml.{ftrue};
    ghost use Rattle.published_rings.specs.Log.{IsKept};

    ghost holds = { λ cells entries. IsKept cells entries };

    ghost first = { [] };

    ghost hinted = { λ number entries. Unit {0} };

    ghost shows = { λ entries. [] };

    ghost keeps = { λ names entries. ftrue };

    ghost moves = { λ ask before after answer. Unit {0} };
}

/// Nothing is traded.
pub(crate) struct Nothing;

impl Gain<Entry, u64> for Nothing {
    ghost use base.Fml.{ftrue};

    ghost after = { λ names about answer. ftrue };
}

/// A new cell.
pub(crate) struct Draw;

impl Play<Entry, u64> for Draw {
    ghost use Rattle.published_rings.specs.Log.{Draws};

    ghost then = { Draws };
}

/// The first entry.
pub(crate) struct Begin;

impl Play<Entry, u64> for Begin {
    ghost use Rattle.published_rings.specs.Log.{Starts};

    ghost then = { Starts };
}

/// One more entry.
pub(crate) struct Extend;

impl Play<Entry, u64> for Extend {
    ghost use Rattle.published_rings.specs.Log.{Extends};

    ghost then = { Extends };
}

/// What was seen is all.
pub(crate) struct Compare;

impl Play<Entry, u64> for Compare {
    ghost use Rattle.published_rings.specs.Log.{Compares};

    ghost then = { Compares };
}

/// A step that announces an entry: the ring, with the cell of the pen.
pub(crate) struct Announced;

impl Plain<(Snapshot<Ring>, Snapshot<Pen>), Entry, u64> for Announced {
    ghost use Rattle.std.specs.Prelude.{None};

    ghost ask = { λ about. record { ring = about.0.value; cell = about.1.value.nib.key } };

    ghost state = { λ about. None };
}

/// A step that announces nothing.
pub(crate) struct Silent;

impl Plain<(), Entry, u64> for Silent {
    ghost use Rattle.std.specs.Prelude.{None};
    ghost use Rattle.published_rings.specs.Log.{no_entry};

    ghost ask = { λ about. no_entry };

    ghost state = { λ about. None };
}
