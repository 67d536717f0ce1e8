//! What readings and writings of texts share: decimal numbers, each with one spelling, the position of a byte, and taking back what
//! was written when a writing fails.
#![tactic(auto)]

mod buffer;
pub mod laws;
mod number;
mod position;

pub use buffer::taken_back_at_error;
pub use number::{NumberError, is_numeral, number_up_to, value_up_to};
pub use position::{after_last, first_position};
