//! What holds of the rule. Each function here does nothing: its contract is a law on the definitions, for the proofs of
//! crates above.
ghost use Rattle.directory_rules.specs.Laws.{RefusalsChangeNothing, AcceptedChange, PiecesOfSightsAreOwned, NodesHoldOnce, SightsOfRunsAreOwned, SealedWasSettled, MailIsNumbered, LostIsLost, LiveHaveNodes, NodesAreOfOneVersion, NumbersAreDistinct, UnsettledPieceServesNothing};
ghost use Rattle.directory_rules.specs.Worked.{RefusalsCompute};

/// A refused event leaves the world as it was, and an accepted one leaves the world that it made.
pub fn runs_go_on()
    ensures refused { RefusalsChangeNothing }
    ensures accepted { AcceptedChange }
{}

/// The pieces after every sight hold each hash that the silo owns in the ring that it then has, once, and no other; and each
/// entry lies in its piece.
pub fn pieces_are_owned()
    ensures { PiecesOfSightsAreOwned }
{}

/// After any run whose joins name hashes the pieces of every node hold each hash that its silo owns, once, and no other; and
/// every sight of one leaves each entry in its piece.
pub fn nodes_hold_what_they_own()
    ensures always { NodesHoldOnce }
    ensures of_sights { SightsOfRunsAreOwned }
{}

/// What a sight seals was wholly settled, and its new owner is another silo.
pub fn sealed_was_settled()
    ensures { SealedWasSettled }
{}

/// The mail's numbers rise, and the limit bounds how many there are.
pub fn mail_is_numbered()
    ensures { MailIsNumbered }
{}

/// A letter that was lost is in no mail again.
pub fn lost_is_lost()
    ensures { LostIsLost }
{}

/// Every refusal of an event, worked out in one run of a small directory.
pub fn refusals_compute()
    ensures { RefusalsCompute }
{}

/// A silo has a node just where it is in the current view and isn't Dead there; and the views keep what all views keep.
pub fn live_have_nodes()
    ensures { LiveHaveNodes }
{}

/// A node's ring and holding are of the version that it has seen.
pub fn nodes_are_of_one_version()
    ensures { NodesAreOfOneVersion }
{}

/// No two requests of a silo's host have one number, and its next number is above them all.
pub fn numbers_are_distinct()
    ensures { NumbersAreDistinct }
{}

/// A piece that isn't settled serves no request, of any version.
pub fn unsettled_piece_serves_nothing()
    ensures { UnsettledPieceServesNothing }
{}
