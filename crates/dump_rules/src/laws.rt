//! Laws of dumps and verdicts: each function has a law as its contract, and does nothing.

ghost use Rattle.std.specs.Prelude.{◌≡◌, true, false, codes, All, None, ◌↔◌};
ghost use Rattle.std.specs.Bool.{Decides};
ghost use Rattle.dump_rules.specs.Dump.{DumpNode, DumpValue};
ghost use Rattle.dump_rules.specs.Verdict.{HasHashes, HasItsRanges, has_its_ranges, live_nodes, verdict};
ghost use Rattle.dump_rules.specs.DumpShape.{is_dump};
ghost use Rattle.dump_rules.specs.RightShape.{IsDump};
ghost use Rattle.dump_rules.specs.RightDump.{IsRightDump, IsVerdict};
ghost use Rattle.dump_rules.specs.Judgement.{judgement_of, judged};

/// A node's pieces are compared to what it owns at a few hashes only, and that is enough.
pub fn turning_hashes_suffice()
    ensures { (node : DumpNode) → HasHashes node → Decides (has_its_ranges node) (HasItsRanges node) }
{}

/// The verdict over a dump: what each answer says in the directory's own words, and that all is right just where there is no
/// fault.
pub fn verdicts_are_right()
    ensures answers { (dump : DumpValue) → All HasHashes (live_nodes dump) → IsVerdict dump (verdict dump) }
    ensures none { (dump : DumpValue) → All HasHashes (live_nodes dump) → (verdict dump ≡ None) ↔ IsRightDump dump }
{}

/// What the test for a dump says, in the directory's own words.
pub fn dumps_have_their_shape()
    ensures { (dump : DumpValue) → Decides (is_dump dump) (IsDump dump) }
{}

/// A dump is judged only where its lists have the shape of one, and the verdict then says all that it has to.
pub fn shapes_come_first()
    ensures no_dump { (dump : DumpValue) → is_dump dump ≡ false → judged dump ≡ record { text = codes "check 972\n"; status = 1 } }
    ensures dump { (dump : DumpValue) → is_dump dump ≡ true → judged dump ≡ judgement_of dump }
    ensures verdict { (dump : DumpValue) → is_dump dump ≡ true → IsVerdict dump (verdict dump) }
    ensures right { (dump : DumpValue) → is_dump dump ≡ true → (verdict dump ≡ None) ↔ IsRightDump dump }
{}
