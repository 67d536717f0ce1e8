use directory_letters::Letter;
use directory_rules::Effect;

/// What a silo answers to a command, to a sight or to a letter: the letters that it sends, in the order of sending, and what it did
/// (`docs/RULES.md#effects`).
#[derive(Drop)]
pub struct Answer {
    pub letters: Vec<Letter>,
    pub effect: Effect,
}
