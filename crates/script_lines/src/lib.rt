//! Lines of a script, read as commands, and the lines that a script prints, each written behind what stands in a byte buffer. The rules
//! are in `docs/RULES.md#scripts` and `docs/RULES.md#what-a-script-prints`.
//!
//! Each call that writes writes one line with its line feed, or leaves the bytes as they were when memory runs out.
#![tactic(auto)]

mod command;
mod error;
mod event_lines;
mod grammar;
pub mod laws;
mod line;
mod lines;
mod marked;
mod own_steps;
mod places;
mod question_lines;
mod read;
mod show_lines;
mod tables;
mod verbs;
mod words;
mod written_words;

pub use command::Command;
pub use error::{ReadError, ScriptFault};
pub use event_lines::{push_effect, push_happening, write_fault, write_outcome, write_refusal};
pub use line::end_line;
pub use lines::without_return;
pub use own_steps::own_step;
pub use places::places_in;
pub use question_lines::{write_letter, write_owner, write_place};
pub use read::{LONGEST_LINE, is_remark, is_text, read_command};
pub use show_lines::{write_held, write_no_owner, write_range, write_silo, write_version};
pub use tables::{kind_word, status_word};
pub use words::{only_three_words, only_two_words, only_word, split_word};
pub use written_words::{
    push_activation, push_entry, push_grain, push_named, push_number, push_range, push_silo,
    push_word,
};
