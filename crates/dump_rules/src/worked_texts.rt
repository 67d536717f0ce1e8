//! Worked texts, and what is said of each: every function has that as its contract, and does nothing.

ghost use Rattle.dump_rules.specs.Texts.{IsSaid};
ghost use Rattle.dump_rules.specs.Texts as texts;

/// All is right.
#[tactic(auto, using(crate::proofs::Computed::check_ok))]
pub fn check_ok()
    ensures { IsSaid texts.check_ok }
{}

/// The last brace is missing: no value.
#[tactic(auto, using(crate::proofs::Computed::check_cut))]
pub fn check_cut()
    ensures { IsSaid texts.check_cut }
{}

/// A member that no dump has.
#[tactic(auto, using(crate::proofs::Computed::check_extra_member))]
pub fn check_extra_member()
    ensures { IsSaid texts.check_extra_member }
{}

/// A silo has seen a version that isn't made.
#[tactic(auto, using(crate::proofs::Computed::check_seen_above_current))]
pub fn check_seen_above_current()
    ensures { IsSaid texts.check_seen_above_current }
{}

/// A ring that isn't that of its view.
#[tactic(auto, using(crate::proofs::Computed::check_ring))]
pub fn check_ring()
    ensures { IsSaid texts.check_ring }
{}

/// A piece that lacks a hash.
#[tactic(auto, using(crate::proofs::Computed::check_range))]
pub fn check_range()
    ensures { IsSaid texts.check_range }
{}

/// A firm activation without an entry.
#[tactic(auto, using(crate::proofs::Computed::check_missing_firm))]
pub fn check_missing_firm()
    ensures { IsSaid texts.check_missing_firm }
{}

/// An asking activation needs no entry.
#[tactic(auto, using(crate::proofs::Computed::check_asking))]
pub fn check_asking()
    ensures { IsSaid texts.check_asking }
{}

/// An entry of an activation that nobody holds.
#[tactic(auto, using(crate::proofs::Computed::check_stranger))]
pub fn check_stranger()
    ensures { IsSaid texts.check_stranger }
{}

/// A grain is firm on two silos.
#[tactic(auto, using(crate::proofs::Computed::check_two_firm))]
pub fn check_two_firm()
    ensures { IsSaid texts.check_two_firm }
{}

/// A node of a Dead silo is passed over.
#[tactic(auto, using(crate::proofs::Computed::check_passes_over_the_dead))]
pub fn check_passes_over_the_dead()
    ensures { IsSaid texts.check_passes_over_the_dead }
{}

/// Any spacing is read, any order of members, and of a member that stands twice the last.
pub fn spacing_and_order()
    ensures nobody_joined { IsSaid texts.nobody_joined }
    ensures spaced { IsSaid texts.spaced }
    ensures another_order { IsSaid texts.another_order }
    ensures escaped_letter { IsSaid texts.escaped_letter }
    ensures member_twice { IsSaid texts.member_twice }
    ensures member_twice_amiss { IsSaid texts.member_twice_amiss }
{}

/// A member that is missing, of another type or unreadable makes a value no dump.
pub fn members_and_types()
    ensures member_missing { IsSaid texts.member_missing }
    ensures member_misnamed { IsSaid texts.member_misnamed }
    ensures text_for_number { IsSaid texts.text_for_number }
    ensures with_point { IsSaid texts.with_point }
    ensures with_exponent { IsSaid texts.with_exponent }
    ensures minus_nought { IsSaid texts.minus_nought }
    ensures number_too_high { IsSaid texts.number_too_high }
    ensures unknown_word { IsSaid texts.unknown_word }
    ensures unreadable_silo { IsSaid texts.unreadable_silo }
    ensures unreadable_range { IsSaid texts.unreadable_range }
    ensures point_of_two { IsSaid texts.point_of_two }
    ensures no_object { IsSaid texts.no_object }
{}

/// Bytes that tell no value.
pub fn no_values()
    ensures no_bytes { IsSaid texts.no_bytes }
    ensures no_json { IsSaid texts.no_json }
    ensures two_values { IsSaid texts.two_values }
    ensures comma_at_end { IsSaid texts.comma_at_end }
    ensures no_utf8 { IsSaid texts.no_utf8 }
{}
