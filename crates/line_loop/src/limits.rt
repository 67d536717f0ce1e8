//! How much of a script the loop keeps and reads.

use script_lines::LONGEST_LINE;

/// How many bytes may begin a line of a script that isn't known to be too long: those of the longest, and a carriage return.
pub const MOST_BEGUN: usize = LONGEST_LINE + 1;

/// How many bytes a script may have.
pub const MOST_OF_SCRIPT: u64 = 268_435_456;
