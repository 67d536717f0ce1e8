//! Laws of lines: each function has a law as its contract, and does nothing.

ghost use Rattle.std.specs.Prelude.{◌≡◌, ℕ, ◌∷◌, MatchOption, Option};
ghost use Rattle.std.specs.Option.{option_map};
ghost use Rattle.silo_address.specs.Grain.{Grain};
ghost use Rattle.silo_address.specs.Silo.{Silo};
ghost use Rattle.membership_view.specs.declared.status.Status.{Status};
ghost use Rattle.ring_range.specs.Range.{Range};
ghost use Rattle.hash_ring.specs.Owner.{owner_of};
ghost use Rattle.directory_rules.specs.declared.policy.Policy.{Policy};
ghost use Rattle.directory_rules.specs.Happens.{absent_number, node_of};
ghost use Rattle.directory_rules.specs.State.{Letter, Node, World};
ghost use Rattle.directory_rules.specs.Letter.{kind_of};
ghost use Rattle.directory_rules.specs.World.{current_ring};
ghost use Rattle.script_rules.specs.Lines.{refusal_line};
ghost use Rattle.script_rules.specs.Show.{chosen_place, held_lines, letter_line, owner_line, place_line, range_line, silo_lines, version_line};
ghost use Rattle.script_lines.specs.Shown.{line_of_letter, line_of_owner, line_of_place, line_of_range, line_of_silo, line_of_version, figures_of, settled_entries};

/// The lines of `show` and `owner` are the rule's, by what they tell of the world: its current version, the figures of a
/// silo's node, the entries of a range that is settled at its owner, and the point that owns a hash in the current ring.
#[tactic(auto, unfolding(script_rules::specs::Show::owner_line))]
pub fn lines_are_of_the_world()
    ensures version { (world : World) → version_line world ≡ line_of_version world.views.version }
    ensures silo { (silo : Silo) (status : Status) (node : Option Node)
        → silo_lines silo status node ≡ line_of_silo silo status (option_map figures_of node) ∷ held_lines silo node }
    ensures range { (world : World) (range : Range) (owner : Silo)
        → range_line world range owner ≡ line_of_range range owner (settled_entries world (node_of world owner) range) }
    ensures owner { (world : World) (hash : ℕ) → owner_line world hash ≡ line_of_owner hash (owner_of (current_ring world) hash) }
{}

/// So are those of `mail`, by a letter's kind, its silos and its version, and that of `place`, by the silo that the policy
/// chooses; one that has no node and asks is refused.
#[tactic(auto, unfolding(script_rules::specs::Show::place_line))]
pub fn lines_of_letters_and_places()
    ensures letter { (number : ℕ) (letter : Letter)
        → letter_line number letter ≡ line_of_letter number (kind_of letter.body) letter.from letter.to letter.version }
    ensures place { (world : World) (silo : Silo) (policy : Policy) (grain : Grain)
        → MatchOption (node_of world silo)
        (place_line world silo policy grain ≡ refusal_line (absent_number world silo))
        (λ node. place_line world silo policy grain ≡ line_of_place grain (chosen_place world policy node grain)) }
{}
