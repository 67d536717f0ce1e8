/// What comes of a page that is taken (`docs/RULES.md#transfer`).
#[derive(Clone, Copy, PartialEq, Eq)]
pub enum GatheringProgress {
    /// More pages are wanted.
    More,
    /// All pages were had, and what was gathered is the whole snapshot.
    Complete,
}
