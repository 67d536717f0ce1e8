//! The laws of a silo by itself. Each function here does nothing: its contract is a law about the definitions that the other
//! contracts use, for whoever has many silos.
ghost use Rattle.silo_rules.specs.Laws.{FollowsTheRule, StaysWhole};

/// Views and places are by the settings, and the node's ring is that of the view that it has seen, by these places: at first, and
/// whatever the silo is told, asked or sent.
pub fn silos_stay_whole()
    ensures { StaysWhole }
{}

/// In a world that has just what the silo has, the event rule has it do what it does by itself.
pub fn silos_follow_the_rule()
    ensures { FollowsTheRule }
{}
