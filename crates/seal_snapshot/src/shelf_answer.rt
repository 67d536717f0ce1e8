use crate::Page;

/// What a shelf answers to an ask (`docs/RULES.md#transfer`).
#[derive(Drop)]
pub enum ShelfAnswer {
    /// The page that was asked for.
    Page(Page),
    /// There is no such snapshot, or it hasn't so many pages.
    Missing,
    /// The version wasn't seen yet.
    Behind,
}
