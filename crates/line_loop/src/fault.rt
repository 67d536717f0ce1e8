use script_lines::ScriptFault;

/// The fault of a line of a script.
#[derive(Clone, Copy, PartialEq, Eq)]
pub struct ScriptLineFault {
    /// The line's number, from 1; lines that are passed over count.
    pub line: u64,
    /// What is wrong with it.
    pub fault: ScriptFault,
}
