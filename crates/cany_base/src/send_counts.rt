ghost use Rattle.std.specs.Prelude.{◌≡◌, ℕ, ◌<◌, ◌≤◌, List, [], ◌∷◌, ◌++◌, count_by, length};
ghost use Rattle.cany_base.specs.declared.message.SendAsk.{SendAsk};
ghost use Rattle.cany_base.specs.Limits.{most_sends};
ghost use Rattle.cany_base.specs.SendCounts.{AreCountsOf, is_send_by, is_send_of};

use crate::message::{SendAsk, Service};
use crate::node::NodeId;

/// How many scripted sends are by each service and of each node.
#[derive(Clone, Copy)]
pub(crate) struct SendCounts {
    ed: u16,
    rel: u16,
    tot: u16,
    of_node: [u16; NodeId::COUNT as usize],
}

impl SendCounts {
    /// The counts of these sends.
    pub(crate) fn of(sends: &[SendAsk]) -> SendCounts
        requires { length sends.now ≤ most_sends }
        ensures { AreCountsOf sends.now result }
    {
        let mut counts = SendCounts::none();
        for send in sends {
            counts.add(send);
        }
        counts
    }

    fn none() -> SendCounts
        ensures { AreCountsOf [] result }
    {
        SendCounts {
            ed: 0,
            rel: 0,
            tot: 0,
            of_node: [0; NodeId::COUNT as usize],
        }
    }

    /// Counts a send that follows those counted before.
    fn add(&mut self, send: &SendAsk)
        requires { (earlier : List SendAsk) × (length earlier < most_sends) × AreCountsOf earlier self.old }
        ensures { (earlier : List SendAsk) → AreCountsOf earlier self.old → AreCountsOf (earlier ++ send.now ∷ []) self.new }
    {
        match send.service {
            Service::Ed => self.ed += 1,
            Service::Rel => self.rel += 1,
            Service::Tot => self.tot += 1,
        }
        let place = usize::from(send.node.get());
        self.of_node[place] += 1;
    }

    /// How many are by a service.
    pub(crate) fn by(&self, service: Service) -> usize
        ensures { (sends : List SendAsk) → AreCountsOf sends self.now → result ≡ count_by (is_send_by service) sends }
    {
        let count = match service {
            Service::Ed => self.ed,
            Service::Rel => self.rel,
            Service::Tot => self.tot,
        };
        usize::from(count)
    }

    /// How many are of a node.
    pub(crate) fn of_node(&self, node: NodeId) -> usize
        ensures { (sends : List SendAsk) → AreCountsOf sends self.now → result ≡ count_by (is_send_of node) sends }
    {
        usize::from(self.of_node[usize::from(node.get())])
    }
}
