//! The marks that a board keeps of its silos' nodes.
ghost use Rattle.std.specs.Prelude.{◌≡◌, None, IfSome, true};
ghost use Rattle.silo_address.specs.Silo.{Silo};
ghost use Rattle.directory_rules.specs.EventModel.{event_of};
ghost use Rattle.cluster_board.specs.Changed.{IsReceiver, MayChange};
ghost use Rattle.cluster_board.specs.Marked.{AreLeft, AreMore, marked_at};

use crate::{Mark, Marks, Names};
use directory_core::World;
use directory_node::SharedNode;
use directory_rules::Event;
use silo_address::SiloAddress;
use std::collections::BTreeMap;

/// The silo's mark, which is of this node if there is one, or else a new one, which is kept if there is memory for it.
pub(crate) fn mark_of<N: Names>(
    marked: &mut BTreeMap<SiloAddress, Mark<SharedNode, N>>,
    marks: &mut Option<Marks<SharedNode, N>>,
    silo: &SiloAddress,
    node: &SharedNode,
) -> Option<Mark<SharedNode, N>>
    requires its { IfSome (marked_at marked.old.entries silo.now) (λ known. known ≡ node.now) }
    ensures mark { IfSome result (λ mark. mark ≡ node.now) }
    ensures more { AreMore silo.now node.now marked.old.entries marked.new.entries }
{
    if let Some(mark) = marked.get(silo) {
        return Some(mark.again());
    }
    let mark = new_mark(marks, node)?;
    keep(marked, *silo, mark.again());
    Some(mark)
}

// A new mark of the node, if there is one.
fn new_mark<N: Names>(
    marks: &mut Option<Marks<SharedNode, N>>,
    node: &SharedNode,
) -> Option<Mark<SharedNode, N>>
    ensures { IfSome result (λ mark. mark ≡ node.now) }
{
    match marks {
        Some(marks) => marks.mark(node),
        None => None,
    }
}

// The mark is the silo's from now on, if there is memory for it.
fn keep<N: Names>(
    marked: &mut BTreeMap<SiloAddress, Mark<SharedNode, N>>,
    silo: SiloAddress,
    mark: Mark<SharedNode, N>,
)
    ensures { AreMore silo mark marked.old.entries marked.new.entries }
{
    let _ = marked.insert(silo, mark);
}

/// The marks of all nodes that the event may change are dropped.
pub(crate) fn forget_by<N: Names>(
    marked: &mut BTreeMap<SiloAddress, Mark<SharedNode, N>>,
    world: &World,
    event: &Event,
)
    ensures left { AreLeft marked.old.entries marked.new.entries }
    ensures gone { (silo : Silo) → MayChange world.now (event_of event.now) silo → marked_at marked.new.entries silo ≡ None }
{
    match event {
        Event::Join { .. } | Event::Leave { .. } | Event::Kill { .. } => marked.clear(),
        Event::See { silo, .. } | Event::Do { silo, .. } => forget(marked, silo),
        Event::Deliver { number } => forget_receiver(marked, world, *number),
        Event::Lose { .. } => {}
    }
}

/// The silo's mark is dropped.
pub(crate) fn forget<N: Names>(
    marked: &mut BTreeMap<SiloAddress, Mark<SharedNode, N>>,
    silo: &SiloAddress,
)
    ensures left { AreLeft marked.old.entries marked.new.entries }
    ensures gone { marked_at marked.new.entries silo.now ≡ None }
{
    marked.remove(silo);
}

// So is that of the receiver of the letter of that number, if there is such a letter.
fn forget_receiver<N: Names>(
    marked: &mut BTreeMap<SiloAddress, Mark<SharedNode, N>>,
    world: &World,
    number: u64,
)
    ensures left { AreLeft marked.old.entries marked.new.entries }
    ensures gone { (silo : Silo) → IsReceiver world.now number silo → marked_at marked.new.entries silo ≡ None }
{
    if let Some(mailed) = world.letter(number) {
        forget(marked, &mailed.letter().to());
    }
}
