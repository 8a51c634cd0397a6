ghost use Rattle.std.specs.Prelude.{◌≡◌, ℕ, ◌<◌, ◌==◌, ◌&&◌, ◌||◌, not, length, replicate, IfOk};
ghost use Rattle.cany_base.specs.Nodes.{nobody};
ghost use Rattle.cany_totcan.specs.MessageSet.{has_message, most_of_one, numbers_of};

use cany_base::{BoundedVec, Memory, MsgKey, NodeId, NodeSet, Scenario, Service};
use cany_message::sends_by;
use std::alloc::Global;
use std::marker::Model;

/// A set of messages: for each sequence number the origins of those messages of this number that
/// are in it.
#[derive(Drop)]
pub(crate) struct MessageSet {
    origins: BoundedVec<NodeSet>,
}

impl Model for MessageSet {
    ghost use Rattle.cany_totcan.specs.MessageSet.{MessageSetParts};

    ghost Value = { MessageSetParts };

    ghost view = { λ set. record { origins = set.origins.items } };
}

impl MessageSet {
    /// No message, with a place for each number below this one.
    pub(crate) fn build(alloc: Global, numbers: usize) -> Result<MessageSet, Memory>
        ensures { IfOk result (λ set. set.origins ≡ replicate numbers nobody) }
    {
        let mut origins = BoundedVec::build(alloc, numbers)?;
        for _ in 0..numbers {
            origins.push(NodeSet::empty());
        }
        Ok(MessageSet { origins })
    }

    /// Whether a message is in the set.
    pub(crate) fn has(&self, msg: &MsgKey) -> bool
        ensures { result ≡ has_message self.now msg.now.seq msg.now.origin }
    {
        let place = usize::from(msg.seq);
        place < self.origins.len() && self.origins.get(place).has(msg.origin)
    }

    /// Puts a message in.
    pub(crate) fn insert(&mut self, msg: &MsgKey)
        requires { msg.now.seq < length self.old.origins }
        ensures has { (seq origin : ℕ) →
            has_message self.new seq origin ≡ (seq == msg.now.seq && origin == msg.now.origin || has_message self.old seq origin) }
        ensures numbers { length self.new.origins ≡ length self.old.origins }
    {
        let place = usize::from(msg.seq);
        let mut origins = self.origins.get(place);
        origins.insert(msg.origin);
        self.origins.set(place, origins);
    }

    /// Takes a message out.
    pub(crate) fn take_out(&mut self, msg: &MsgKey)
        requires { msg.now.seq < length self.old.origins }
        ensures has { (seq origin : ℕ) →
            has_message self.new seq origin ≡ (not (seq == msg.now.seq && origin == msg.now.origin) && has_message self.old seq origin) }
        ensures numbers { length self.new.origins ≡ length self.old.origins }
    {
        let place = usize::from(msg.seq);
        let mut origins = self.origins.get(place);
        origins.remove(msg.origin);
        self.origins.set(place, origins);
    }
}

/// A number above those of all messages of the scenario by TOTCAN: the most sends of one node,
/// since those of an origin are numbered together, whatever their service.
pub(crate) fn numbers_of(scenario: &Scenario) -> usize
    ensures { result ≡ numbers_of scenario.now }
{
    if sends_by(scenario, Service::Tot) == 0 {
        return 0;
    }
    most_of_one(scenario)
}

/// The most scripted sends of one node.
fn most_of_one(scenario: &Scenario) -> usize
    ensures { result ≡ most_of_one scenario.now.sends scenario.now.params.nodes }
{
    let mut most = 0;
    for i in 0..usize::from(scenario.params().nodes) {
        most = scenario.sends_of(NodeId::of_index(i)).max(most);
    }
    most
}
