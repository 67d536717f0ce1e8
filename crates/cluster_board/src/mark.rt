ghost use Rattle.std.specs.Prelude.{◌≡◌, IsTrue};

use crate::slots::Slots;
use boxcar::slot::Written;
use std::marker::{Brand, Model, PhantomData};
use std::snapshot::Snapshot;

/// Which family of marks a mark is of: the names of the places of its blocks.
pub trait Names {
    ghost names: { List ℕ };

    ghost use Rattle.std.specs.Prelude.{List, ℕ};
}

impl Names for Brand {
    ghost names = { [] };

    ghost use Rattle.std.specs.Prelude.{[]};
}

/// A mark of a value, which is what clauses see of it: two numbers, and the tokens that show what was written in the slot which
/// the numbers name.
#[derive(Drop)]
pub struct Mark<T, N: Names> {
    pub(crate) block: usize,
    pub(crate) index: usize,
    pub(crate) slots: Written<Snapshot<Slots<T>>>,
    pub(crate) value: Written<Snapshot<T>>,
    pub(crate) names: PhantomData<N>,
}

impl<T, N: Names> Model for Mark<T, N> {
    ghost use Rattle.std.specs.Prelude.{◌≡◌, Some, slice_get};

    ghost Value = { T };

    ghost view = { λ m. m.value.value.value };

    ghost invariant = { λ m. (slice_get N.names m.block ≡ Some m.slots.of) × (slice_get m.slots.value.value m.index ≡ Some m.value.of) };
}

impl<T, N: Names> Mark<T, N> {
    /// The same mark once more.
    pub fn again(&self) -> Mark<T, N>
        ensures { result ≡ self.now }
    {
        Mark {
            block: self.block,
            index: self.index,
            slots: self.slots.again(),
            value: self.value.again(),
            names: PhantomData,
        }
    }

    /// Whether the two are one mark, and so of equal values. Two marks may also be of equal values and not be one.
    pub fn is_that(&self, other: &Mark<T, N>) -> bool
        ensures { IsTrue result → self.now ≡ other.now }
    {
        if self.block != other.block || self.index != other.index {
            return false;
        }
        self.slots.agrees(&other.slots);
        self.value.agrees(&other.value);
        true
    }
}
