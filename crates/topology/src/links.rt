//! The links of a network, and the other end of each.

ghost use Rattle.std.specs.Prelude.{◌≡◌, ◌<◌, [], ◌∷◌, ◌++◌, length, false, None, Some, slice_get, OnOk, OnErr};
ghost use Rattle.world_model.specs.Topology.{peer_among, same_link_end};

use net_types::OutOfMemory;
use std::alloc::Global;
use std::collections::HashMap;
use std::marker::Model;
use world_model::LinkEnd;

/// A link between two interfaces: two ports of nodes that are connected.
#[derive(Clone, Copy)]
pub struct Link {
    first: LinkEnd,
    second: LinkEnd,
}

impl Model for Link {
    ghost use Rattle.world_model.specs.Topology.{Link as Joined};

    ghost Value = { Joined };

    ghost view = { λ l. record { first = l.first; second = l.second } };

    ghost inverse = { λ l. record { first = l.first; second = l.second } };
}

impl Link {
    /// The end that its line names first.
    pub fn first(&self) -> LinkEnd
        ensures { result ≡ self.now.first }
    {
        self.first
    }

    /// The other.
    pub fn second(&self) -> LinkEnd
        ensures { result ≡ self.now.second }
    {
        self.second
    }
}

/// The links of a network, in the order of their lines, with a map of each port's other end.
#[derive(Drop)]
pub struct Links {
    list: Vec<Link>,
    peers: HashMap<LinkEnd, LinkEnd>,
}

impl Model for Links {
    ghost use Rattle.std.specs.Prelude.{List};
    ghost use Rattle.world_model.specs.Topology.{Link as Joined};
    ghost use Rattle.topology.specs.Indexes.{LeadAcross};

    ghost Value = { List Joined };

    ghost view = { λ l. l.list.items };

    ghost invariant = { λ l. LeadAcross l.peers.entries l.list.items };
}

impl Links {
    /// No links.
    pub fn new(alloc: Global) -> Links
        ensures { result ≡ [] }
    {
        Links {
            list: Vec::new(alloc),
            peers: HashMap::new(alloc),
        }
    }

    /// How many there are.
    pub fn len(&self) -> usize
        ensures { result ≡ length self.now }
    {
        self.list.len()
    }

    /// The link at `place`, from 0.
    pub fn at(&self, place: usize) -> Link
        requires { place < length self.now }
        ensures { slice_get self.now place ≡ Some result }
    {
        self.list[place]
    }

    /// The other end of the link at a port; `None` where the port isn't linked.
    pub fn peer(&self, end: LinkEnd) -> Option<LinkEnd>
        ensures { result ≡ peer_among end self.now }
    {
        self.peers.get(&end).copied()
    }

    /// Joins two ports that aren't linked. Want of memory changes nothing.
    pub fn push(&mut self, first: LinkEnd, second: LinkEnd) -> Result<(), OutOfMemory>
        requires first { peer_among first self.old ≡ None }
        requires second { peer_among second self.old ≡ None }
        requires apart { same_link_end first second ≡ false }
        ensures ok { OnOk result (self.new ≡ self.old ++ record { first = first; second = second } ∷ []) }
        ensures err { OnErr result (self.new ≡ self.old) }
    {
        self.list.reserve(1)?;
        self.peers.reserve(2)?;
        self.peers.insert(first, second)?;
        self.peers.insert(second, first)?;
        self.list.push_reserved(Link { first, second });
        Ok(())
    }
}
