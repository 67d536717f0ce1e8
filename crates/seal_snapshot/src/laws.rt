//! Laws of the definitions, for proofs about nodes: each function does nothing, and its clause states a law.

ghost use Rattle.seal_snapshot.specs.Laws.{SealedComesBehind};

/// What a sight seals of arcs that come one after the other, at a version above all that is kept, comes behind the shelf.
pub fn sealed_comes_behind()
    ensures { SealedComesBehind }
{}
