/// What comes of a report that is taken (`docs/RULES.md#recovery`).
#[derive(Clone, Copy, PartialEq, Eq)]
pub enum RecoveryProgress {
    /// Its silo has more to tell, behind the report's last entry.
    Continues,
    /// It is its silo's last, and more silos are awaited.
    More,
    /// All silos have told all, and what was gathered is the union of their reports.
    Complete,
}
