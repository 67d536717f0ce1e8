ghost use Rattle.std.specs.Prelude.{◌≡◌, ◌↔◌, IsTrue};

use silo_address::{ActivationId, Entry, GrainId, SiloAddress};

/// What a request asks of the owner of a grain's hash (`docs/RULES.md#requests`).
#[derive(Clone, Copy)]
pub enum Act {
    /// To enter the activation, where the grain has no entry, or that of the previous activation.
    Register {
        entry: Entry,
        previous: Option<ActivationId>,
    },
    /// To take out just this activation.
    Deregister {
        entry: Entry,
    },
    /// To tell the grain's entry.
    Find {
        grain: GrainId,
    },
}

impl Act {
    /// Whether the two are one act.
    pub fn same(&self, other: &Act) -> bool
        ensures { IsTrue result ↔ (self.now ≡ other.now) }
    {
        match (self, other) {
            (
                Act::Register { entry, previous },
                Act::Register {
                    entry: its,
                    previous: before,
                },
            ) => { entry.same(its) && same_previous(previous, before) }
            (Act::Deregister { entry }, Act::Deregister { entry: its }) => entry.same(its),
            (Act::Find { grain }, Act::Find { grain: its }) => grain.same(its),
            _ => false,
        }
    }

    /// The act itself: it is copied and not cloned.
    pub fn copy(&self) -> Act
        ensures { result ≡ self.now }
    {
        *self
    }
}

fn same_previous(one: &Option<ActivationId>, other: &Option<ActivationId>) -> bool
    ensures { IsTrue result ↔ (one.now ≡ other.now) }
{
    match (one, other) {
        (Some(one), Some(other)) => one.same(other),
        (None, None) => true,
        _ => false,
    }
}

/// A request, as it travels.
#[derive(Clone, Copy)]
pub struct Request {
    pub sender: SiloAddress,
    /// The version that the sender has seen.
    pub version: u64,
    /// The sender's number for it, from 1 to 2^60, which it uses once.
    pub number: u64,
    /// The hash of the grain.
    pub hash: u32,
    pub act: Act,
}

impl Request {
    /// Whether the two are one request.
    pub fn same(&self, other: &Request) -> bool
        ensures { IsTrue result ↔ (self.now ≡ other.now) }
    {
        self.sender.same(&other.sender)
            && self.version == other.version
            && self.number == other.number
            && self.hash == other.hash
            && self.act.same(&other.act)
    }

    /// The request itself: it is copied and not cloned.
    pub fn copy(&self) -> Request
        ensures { result ≡ self.now }
    {
        *self
    }
}
