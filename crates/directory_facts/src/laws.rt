//! The laws. Each holds for all settings and all lists of events, and says what it asks of them.
ghost use Rattle.directory_facts.specs.Laws.{SettingsStay, NodesAreOwn, CountsAreApart, LettersAreOwn, NodesSeeTheirVersions, RowsHavePlaces, NodesHavePieces, PiecesAreOwned, NamesAreInRange, EventsNameHashes, GrainsHaveHashes};
ghost use Rattle.directory_facts.specs.OneMap.{NodesHaveOneMap, NodesAnswerByOneMap};
ghost use Rattle.directory_facts.specs.Transfers.{PagesAreTheSnapshot, LastPageSettles, LastReportSettles};
ghost use Rattle.directory_facts.specs.Whole.{WasSettledIsSettled, AnswersLeaveOthers};

/// The world keeps its settings. A silo's node is that silo's, by these settings, and it holds one activation a grain.
pub fn nodes_are_own()
    ensures settings { SettingsStay }
    ensures nodes { NodesAreOwn }
{}

/// No two activations that a silo's node holds have one count.
pub fn counts_are_apart()
    ensures { CountsAreApart }
{}

/// A request in the mail is its sender's, under the hash of its grain; what it registers or deregisters is an activation of the
/// sender, and so is what a silo offers. A page is of its letter's version, and so is a report, which tells of its sender.
pub fn letters_are_own()
    ensures { LettersAreOwn }
{}

/// A node's view is that of the version that it has seen, and its ring is the ring of that view by the places of all silos.
pub fn nodes_see_their_versions()
    ensures { NodesSeeTheirVersions }
{}

/// A silo with a row has places; views and places are by the settings.
pub fn rows_have_places()
    ensures { RowsHavePlaces }
{}

/// A node's pieces are ranges, none empty, each under its start, and these rise. A piece's table is in the order of the grains, each
/// entry under its own and in the piece of its hash; a piece that isn't settled has none.
pub fn nodes_have_pieces()
    ensures { NodesHavePieces }
{}

/// A node's pieces hold each hash that its silo owns by its ring, once, and no other, and each entry lies in its piece.
pub fn pieces_are_owned()
    ensures { PiecesAreOwned }
{}

/// Where the values of all events are in range, so are the silos that ever joined, and the silos, grains and counts that a node names: in
/// its ring, its activations, its tables, and where its pieces await other silos.
pub fn names_are_in_range()
    ensures { NamesAreInRange }
{}

/// Events whose values are in range name hashes, which is all that the laws ask of them.
pub fn events_name_hashes()
    ensures { EventsNameHashes }
{}

/// The hash of a grain is a hash, be it stated or made of its text.
pub fn grains_have_hashes()
    ensures { GrainsHaveHashes }
{}

/// A range was settled just where each of its hashes lies in a settled piece.
pub fn was_settled_is_settled()
    ensures { WasSettledIsSettled }
{}

/// An answer leaves the version seen, the ranges and states of the pieces, and the entry of every other grain in any piece.
pub fn answers_leave_others()
    ensures { AnswersLeaveOthers }
{}

/// A silo answers as from one map from grain to entry, however its entries lie in pieces: all entries of its settled pieces are such
/// a map. A request that the silo serves is answered as the map answers it, and what the silo holds then has the map that is left.
pub fn nodes_answer_by_one_map()
    ensures one_map { NodesHaveOneMap }
    ensures answers { NodesAnswerByOneMap }
{}

/// A snapshot's pages, taken one after the other, complete what is gathered with exactly the snapshot's entries, and none is refused.
pub fn pages_are_the_snapshot()
    ensures { PagesAreTheSnapshot }
{}

/// The page with which all entries are there settles its piece with exactly these entries.
pub fn last_page_settles()
    ensures { LastPageSettles }
{}

/// The report with which all silos have reported settles its piece with exactly what was reported.
pub fn last_report_settles()
    ensures { LastReportSettles }
{}
