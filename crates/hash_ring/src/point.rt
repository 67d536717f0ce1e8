ghost use Rattle.std.specs.Prelude.{◌≡◌, ◌↔◌, IsTrue};

use silo_address::SiloAddress;

/// A point of a silo on the circle of hashes. Points are ordered by place, then silo, then index.
#[derive(Clone, Copy, PartialEq, Eq, PartialOrd, Ord)]
pub struct Point {
    /// The hash at which the point stands.
    pub place: u32,
    /// Whose point it is.
    pub silo: SiloAddress,
    /// Which of the silo's points it is, from 0.
    pub index: usize,
}

impl Point {
    /// Whether the two are the same point.
    pub fn same(&self, other: &Point) -> bool
        ensures { IsTrue result ↔ (self.now ≡ other.now) }
    {
        self == other
    }

    /// The same point.
    pub fn copy(&self) -> Point
        ensures { result ≡ self.now }
    {
        *self
    }
}
