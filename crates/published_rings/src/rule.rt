//! The rule under which rings are shown, and what the steps of it tell (`specs/Rule.antt`).
ghost use Rattle.std.specs.Prelude.{[], None};
ghost use Rattle.published_rings.specs.Rule.{Keeps, Looks, Opens, Adds};

use crate::origin::Origin;
use crate::shown::{Edition, Shown};
use atomic_table::{Join, Split};
use crossbeam_utils::rule::{Outcome, Protocol};
use hash_ring::Ring;
use left_right::reader::Reader;
use left_right::writer::Writer;

/// What one end knows: which publication it is of, if it knows that, and the rings that it has seen, oldest first. Clauses read an array
/// as a list, of any length; no value of it is made.
pub(crate) struct Known {
    pub(crate) of: Option<Origin>,
    pub(crate) seen: [Ring; 0],
}

pub(crate) struct Rings;

impl Protocol<Shown, Known> for Rings {
    ghost holds = { Keeps };

    ghost first = { record { of = None; seen = [] } };
}

/// A reader looks at what is shown.
pub(crate) struct Look;

impl Outcome<Shown, Known> for Look {
    ghost then = { Looks };
}

/// The publisher shows the first edition.
pub(crate) struct Open;

impl Outcome<Shown, Known> for Open {
    ghost then = { Opens };
}

/// The publisher shows one more edition.
pub(crate) struct Add;

impl Outcome<Shown, Known> for Add {
    ghost then = { Adds };
}

/// The publisher tells all that it knows, and knows it still.
pub(crate) struct Tells;

impl Split<Known> for Tells {
    ghost left = { λ known. known };

    ghost right = { λ known. known };
}

/// A new reader knows what it was told.
pub(crate) struct Hears;

impl Join<Known> for Hears {
    ghost both = { λ known told. told };

    ghost spent = { record { of = None; seen = [] } };
}

pub(crate) type RingWriter = Writer<Shown, Edition, Known, Rings>;

pub(crate) type RingReader = Reader<Shown, Known, Rings>;
