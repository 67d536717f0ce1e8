//! The dump of a world that events reach is a dump, on which the verdict is that all is right; and the text of a dump is read again as
//! the dump. There is no behaviour here: the laws stand in `laws`.
#![tactic(auto)]

pub mod laws;
