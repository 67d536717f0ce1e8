ghost use Rattle.std.specs.Map.Iter.{ShowsInOrder, deref_pair};
ghost use Rattle.std.specs.Prelude.{◌≡◌, IfOk, IfSome, true};
ghost use Rattle.std.specs.Option.{option_copied, option_map};
ghost use Rattle.silo_address.specs.Silo.{Silo};
ghost use Rattle.hash_ring.specs.Owner.{owner_of};
ghost use Rattle.directory_rules.specs.State.{Node as NodeValue};
ghost use Rattle.directory_rules.specs.World.{first_world};
ghost use Rattle.directory_rules.specs.Headline.{Headline, MovesPlainly};
ghost use Rattle.directory_rules.specs.Happens.{node_of};
ghost use Rattle.directory_rules.specs.Mail.{letter_of};
ghost use Rattle.directory_rules.specs.World.{current_ring};
ghost use Rattle.directory_rules.specs.Happens.{least_deliverable};
ghost use Rattle.grain_partition.specs.Holdings.{are_tidy};
ghost use Rattle.letter_mail.specs.Mail.{has_fresh, least_fresh_to};
ghost use Rattle.letter_mail.specs.MailedModel.{letter_seen};
ghost use Rattle.dump_headline.specs.Told.{IsRightlyTold};
ghost use Rattle.directory_core.specs.CurrentView.{ring_of_current_view};
ghost use Rattle.directory_core.specs.WorldMail.{mail_of};
ghost use Rattle.directory_core.specs.Whole.{IsWorld};

use directory_node::{Membership, Node, SharedNode, Transition};
use directory_rules::Settings;
use hash_ring::{Places, Point, Ring};
use letter_mail::{Mail, MailedLetter};
use membership_view::Views;
use silo_address::SiloAddress;
use std::alloc::{AllocError, Global};
use std::collections::BTreeMap;
use std::collections::btree_map::Iter;
use std::marker::Model;

/// All that there is: the views, every silo's places, a node for each silo that isn't Dead, and the mail
/// (`docs/RULES.md#the-world`).
#[derive(Drop)]
pub struct World {
    pub(crate) alloc: Global,
    pub(crate) settings: Settings,
    pub(crate) accepted: u64,
    pub(crate) membership: Membership,
    // Each may be held by others too, for which it stays as it is.
    pub(crate) nodes: BTreeMap<SiloAddress, SharedNode>,
    pub(crate) mail: Mail,
    // To the version that a silo saw last: who sees it after the version before needs no ring and no arcs of its own.
    pub(crate) shared: Option<Transition>,
}

impl Model for World {
    ghost use Rattle.directory_rules.specs.State.{World};
    ghost use Rattle.directory_core.specs.Transitions.{IsWhole};
    ghost use Rattle.directory_core.specs.WorldModel.{world_of};

    ghost Value = { World };

    ghost view = { world_of };

    ghost invariant = { IsWhole };
}

impl World {
    /// The world before the first event, as it is set up.
    pub fn new(alloc: Global, settings: Settings) -> World
        ensures { result ≡ first_world settings }
    {
        settings.in_range();
        World {
            alloc,
            settings,
            accepted: 0,
            membership: Membership::new(alloc, &settings),
            nodes: BTreeMap::new(alloc),
            mail: Mail::new(alloc),
            shared: None,
        }
    }

    /// What the directory was set up with.
    pub fn settings(&self) -> Settings
        ensures { result ≡ self.now.settings }
    {
        self.settings
    }

    /// How many events were accepted.
    pub fn accepted(&self) -> u64
        ensures { result ≡ self.now.accepted }
    {
        self.accepted
    }

    /// How many letters were ever sent; they are numbered from 1.
    pub fn sent(&self) -> u64
        ensures { result ≡ self.now.sent }
    {
        self.mail.sent()
    }

    /// All views so far.
    pub fn views(&self) -> &Views
        ensures { result.now ≡ self.now.views }
    {
        self.membership.views()
    }

    /// The current version.
    pub fn current(&self) -> u64
        ensures { result ≡ self.now.views.version }
    {
        self.views().current()
    }

    /// Each silo's places, of those that ever joined.
    pub fn places(&self) -> &Places
        ensures { result.now ≡ self.now.places }
    {
        self.membership.places()
    }

    /// The node of a silo; `None` where the silo never joined, or is Dead.
    pub fn node(&self, silo: &SiloAddress) -> Option<&Node>
        ensures { option_copied result ≡ node_of self.now silo.now }
    {
        let shared = self.nodes.get(silo)?;
        Some(shared.node())
    }

    /// That node, as it may be shared: a copy of it is a count, and stays as it is whatever happens to the world.
    pub fn shared_node(&self, silo: &SiloAddress) -> Option<&SharedNode>
        ensures { option_copied result ≡ node_of self.now silo.now }
    {
        self.nodes.get(silo)
    }

    /// The node of each silo that isn't Dead, by address.
    pub fn nodes(&self) -> Iter<'_, SiloAddress, SharedNode>
        ensures rest { result ≡ self.now.nodes }
        ensures runs { ShowsInOrder (deref_pair {K = Silo} {X = NodeValue}) }
    {
        self.nodes.iter()
    }

    /// The letter of that number; `None` where no such letter is in the mail.
    pub fn letter(&self, number: u64) -> Option<MailedLetter<'_>>
        ensures { option_map letter_seen result ≡ letter_of self.now number }
    {
        self.mail.letter(number)
    }

    /// Whether the letter of that number is in the mail and was never delivered.
    pub fn is_fresh(&self, number: u64) -> bool
        ensures { result ≡ has_fresh (mail_of self.now) number }
    {
        self.mail.is_fresh(number)
    }

    /// The least letter to the silo that was never delivered, if there is one: one look, however many letters there are.
    pub fn least_fresh_to(&self, silo: &SiloAddress) -> Option<u64>
        ensures { result ≡ least_fresh_to silo.now (mail_of self.now) }
    {
        self.mail.least_fresh_to(silo)
    }

    /// The least letter that was never delivered and whose receiver has a node, if there is one: one look for each such silo,
    /// however many letters to others stand before it.
    pub fn least_deliverable(&self) -> Option<u64>
        ensures { result ≡ least_deliverable self.now }
    {
        self.mail.least_fresh(&self.nodes)
    }

    /// The ring of the current view. Fails only when memory runs out.
    pub fn current_ring(&self, alloc: Global) -> Result<Ring, AllocError>
        ensures { IfOk result (λ ring. ring ≡ ring_of_current_view self.now) }
    {
        let view = self.membership.view(alloc, self.current())?;
        match Ring::anew(alloc, &view, self.places()) {
            Ok(ring) => Ok(ring),
            Err(_) => Err(AllocError),
        }
    }

    /// The point that owns a hash by the current view, `None` where nobody does. It is searched in the ring of a silo that has
    /// seen the view; where none has, the ring is made anew. Fails only when memory runs out.
    pub fn owner(&self, alloc: Global, hash: u32) -> Result<Option<Point>, AllocError>
        ensures { IfOk result (λ owner. owner ≡ owner_of (current_ring self.now) hash) }
    {
        if let Some(ring) = self.seen_ring() {
            return Ok(ring.owner(hash));
        }
        let ring = self.current_ring(alloc)?;
        Ok(ring.owner(hash))
    }

    // The ring of the current view, as a silo has it that has seen the view. One look for each silo.
    fn seen_ring(&self) -> Option<&Ring>
        ensures { IfSome result (λ ring. ring.now ≡ ring_of_current_view self.now) }
    {
        for silo in self.nodes.keys() {
            if let Some(ring) = self.ring_seen_by(silo) {
                return Some(ring);
            }
        }
        None
    }

    // The silo's ring, where it has seen the current view.
    fn ring_seen_by(&self, silo: &SiloAddress) -> Option<&Ring>
        ensures { IfSome result (λ ring. ring.now ≡ ring_of_current_view self.now) }
    {
        self.whole();
        let Some(node) = self.node(silo) else {
            return None;
        };
        if node.view().version() != self.current() {
            return None;
        }
        Some(node.ring())
    }

    /// A law: events have made the world.
    pub fn whole(&self)
        ensures { IsWorld self.now }
    {
        let _accepted = self.accepted;
    }

    /// A law: each entry of a silo's pieces is hashed into the range of its piece.
    pub fn tidy(&self, silo: &SiloAddress)
        ensures { IfSome (node_of self.now silo.now) (λ node. are_tidy self.now.settings.hashing node.holding.pieces ≡ true) }
    {
        let _silo = silo;
        self.whole();
    }

    /// A law: the headline holds of every world, and each event that a world accepts is one step of the plain machine
    /// (`docs/RULES.md#what-is-to-hold-of-the-world`); its dump is a dump in which all is right
    /// (`docs/RULES.md#the-dump-and-the-verdict`).
    pub fn headline(&self)
        ensures headline { Headline self.now }
        ensures right { IsRightlyTold self.now }
        ensures plain { MovesPlainly self.now }
    {
        self.whole();
    }
}
