//! The laws.
ghost use Rattle.std.specs.Prelude.{◌≡◌, Some, option_and_then};
ghost use Rattle.directory_rules.specs.Headline.{AfterAnyEvents};
ghost use Rattle.dump_rules.specs.Dump.{DumpValue, dump_text};
ghost use Rattle.dump_rules.specs.DumpIn.{dump_in};
ghost use Rattle.dump_rules.specs.Judged.{value_in, judged_text};
ghost use Rattle.dump_rules.specs.Judgement.{judged};
ghost use Rattle.dump_rules.specs.RightShape.{HasNumbers};
ghost use Rattle.dump_headline.specs.Named.{HasNames};
ghost use Rattle.dump_headline.specs.Told.{IsRightlyTold};

/// What is written of a dump whose numbers, silos and grains are in their ranges is read again as that dump, so its bytes are
/// judged as its lists are.
pub fn texts_are_read_again()
    ensures read { (dump : DumpValue) → HasNumbers dump → HasNames dump → option_and_then dump_in (value_in (dump_text dump)) ≡ Some dump }
    ensures judged { (dump : DumpValue) → HasNumbers dump → HasNames dump → judged_text (dump_text dump) ≡ judged dump }
{}

/// After any list of events the dump of the world is a dump. Each ring in it is the one that its own rows give, pieces hold what their
/// silos own, with one entry a grain; no grain is firm on two silos; settled pieces of silos that have seen the current version
/// have each firm activation, and otherwise only activations that silos hold. So the verdict on it is that all is right. That holds for
/// all settings and all lists of events, letters lost, repeated and reordered at will.
pub fn dumps_are_right()
    ensures { AfterAnyEvents IsRightlyTold }
{}
