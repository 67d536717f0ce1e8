//! The laws of what silos send one another: each line of a letter is read as that letter, or not at all.
ghost use Rattle.process_deployment.specs.Sayable.{LettersAreSayable, WrittenIsSayable};

/// Each letter of a world that events reach may be said by a line.
pub fn letters_are_sayable()
    ensures { LettersAreSayable }
{}

/// So may each that a deployment's processes wrote.
pub fn written_is_sayable()
    ensures { WrittenIsSayable }
{}
