use directory_letters::Letter;
use directory_rules::OwnStep;
use hash_ring::Places;
use membership_view::View;

/// One input of a silo's step.
#[derive(Clone, Copy)]
pub enum Input<'a> {
    /// A view to be seen, with the one before it and the places of all silos.
    Sees {
        before: &'a View,
        view: &'a View,
        places: &'a Places,
    },
    /// What the silo's application asks of it.
    Does(&'a OwnStep),
    /// A letter comes.
    Receives(&'a Letter),
}
