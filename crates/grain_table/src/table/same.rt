//! Whether two tables have the same entries.
ghost use Rattle.std.specs.Prelude.{◌≡◌, ◌↔◌, Some, IsTrue};
ghost use Rattle.std.specs.List.{AllByRecursion};
ghost use Rattle.directory_rules.specs.Table.{entry_at};
ghost use Rattle.grain_table.specs.Hashed.{entry_under};

use super::Table;
use crate::hashed_map::HashedMap;
use silo_address::Entry;

impl Table {
    /// Whether both have the same entries, however they hash. One walk over both where they hash in the same way, in which nothing
    /// is hashed; else each entry is looked for in the other table.
    pub fn has_same_entries(&self, other: &Table) -> bool
        ensures { IsTrue result ↔ (self.now.entries ≡ other.now.entries) }
    {
        if self.hashing.same(&other.hashing) {
            return self.has_same_own(other);
        }
        self.has_same_found(other)
    }

    // The same, of two that hash in the same way, and so keep their entries in the same order.
    fn has_same_own(&self, other: &Table) -> bool
        requires { self.now.hashing ≡ other.now.hashing }
        ensures { IsTrue result ↔ (self.now.entries ≡ other.now.entries) }
    {
        self.map.same(&other.map)
    }

    // The same, of any two.
    fn has_same_found(&self, other: &Table) -> bool
        ensures { IsTrue result ↔ (self.now.entries ≡ other.now.entries) }
    {
        other.has_all(&self.map) && self.has_all(&other.map)
    }

    // Whether each grain of the map has its activation here too.
    fn has_all(&self, map: &HashedMap) -> bool
        ensures { IsTrue result ↔ AllByRecursion (λ e. entry_at e.0.grain self.now.entries ≡ Some (entry_under e)) map.now }
    {
        'entries: for (key, activation) in map.iter() {
            let entry = Entry {
                grain: key.grain,
                activation,
            };
            if !self.has(&entry) {
                return false;
            }
        }
        true
    }

    // Whether the entry is in the table.
    fn has(&self, entry: &Entry) -> bool
        ensures { IsTrue result ↔ (entry_at entry.now.grain self.now.entries ≡ Some entry.now) }
    {
        match self.get(&entry.grain) {
            Some(there) => there.same(entry),
            None => false,
        }
    }
}
