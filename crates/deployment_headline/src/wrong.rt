//! Wrong deployments: in each a single step is none that may happen, and two silos have a grain firm.
ghost use Rattle.deployment_headline.specs.Wrong.{ADeadSiloGoesOn, AForgedLetterConfirms, AnotherViewIsTold, TwoSequencesAreTold};

/// A letter that no process wrote confirms an activation.
pub fn a_forged_letter_confirms()
    ensures { AForgedLetterConfirms }
{}

/// A silo's death is decided, but its process goes on.
pub fn a_dead_silo_goes_on()
    ensures { ADeadSiloGoesOn }
{}

/// A process is told another sequence of changes than the others.
pub fn two_sequences_are_told()
    ensures { TwoSequencesAreTold }
{}

/// A process begins with a view that the changes decided didn't make.
pub fn another_view_is_told()
    ensures { AnotherViewIsTold }
{}
