use crate::Ended;

/// What a step of a session did.
#[derive(Clone, Copy)]
pub(crate) enum Step<S> {
    /// A line was played, or passed over.
    Played,
    /// More has to be read first.
    Wants,
    /// The run ends.
    Ends(Ended<S>),
}
