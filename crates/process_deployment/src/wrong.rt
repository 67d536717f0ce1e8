//! Wrong clusters of processes: in each a line comes that may not come, a dead silo's process goes on, or one begins anew as the same
//! silo or with other settings, and two processes have a grain firm.
ghost use Rattle.process_deployment.specs.Wrong.{ADeadProcessGoesOn, AForgedLineConfirms, AnotherChangeIsTold, AnotherViewIsTold, ARestartForgets, ARestartIsRefused, OtherSettingsSplit};

/// A letter's line that no process wrote confirms an activation.
pub fn a_forged_line_confirms()
    ensures { AForgedLineConfirms }
{}

/// A silo's death is decided, but its process goes on.
pub fn a_dead_process_goes_on()
    ensures { ADeadProcessGoesOn }
{}

/// A process reads another change than the one that was decided.
pub fn another_change_is_told()
    ensures { AnotherChangeIsTold }
{}

/// A process begins with another view than the one that the changes decided made.
pub fn another_view_is_told()
    ensures { AnotherViewIsTold }
{}

/// A process that has ended is started again as the same silo, of the same generation.
pub fn a_restart_forgets()
    ensures { ARestartForgets }
{}

/// But where it was started with a token of its own, it joins by none of the lines that its silo joined by, and does nothing.
pub fn a_restart_is_refused()
    ensures { ARestartIsRefused }
{}

/// A process is set up with another number of points a silo than the others. Each line may come.
pub fn other_settings_split()
    ensures { OtherSettingsSplit }
{}
