//! How many log entries there are of each kind.
ghost use Rattle.std.specs.Prelude.{◌≡◌, ◌+◌, ◌^◌, ◌<◌, [], count_by};
ghost use Rattle.cany_log.specs.Counted.{AreAtMost, counts_of};
ghost use Rattle.cany_log.specs.Summary as summary;
ghost use Rattle.cany_log.specs.Summary.{all_entries, entries_of_node};
ghost use Rattle.cany_world.specs.World.{state_of};

use cany_base::{LogEntry, NodeId};
use cany_world::World;

/// How many log entries there are of each kind.
///
/// No contract says how many entries a log has at most, so there is room for the longest slices, of
/// every incarnation of every node.
#[derive(Clone, Copy)]
pub(crate) struct EntryCounts {
    pub(crate) deliveries: u128,
    pub(crate) failures: u128,
    pub(crate) views: u128,
}

fn is_delivery(entry: &LogEntry) -> bool
    ensures { result ≡ summary.is_delivery entry.now }
{
    matches!(entry, LogEntry::Deliver { .. })
}

fn is_failure(entry: &LogEntry) -> bool
    ensures { result ≡ summary.is_failure entry.now }
{
    matches!(entry, LogEntry::Failed { .. })
}

fn is_view(entry: &LogEntry) -> bool
    ensures { result ≡ summary.is_view entry.now }
{
    matches!(entry, LogEntry::View { .. })
}

fn deliveries_in(log: &[LogEntry]) -> usize
    ensures { result ≡ count_by summary.is_delivery log.now }
{
    log.iter().filter(|entry| is_delivery(entry)).count()
}

fn failures_in(log: &[LogEntry]) -> usize
    ensures { result ≡ count_by summary.is_failure log.now }
{
    log.iter().filter(|entry| is_failure(entry)).count()
}

fn views_in(log: &[LogEntry]) -> usize
    ensures { result ≡ count_by summary.is_view log.now }
{
    log.iter().filter(|entry| is_view(entry)).count()
}

impl EntryCounts {
    const NONE: EntryCounts = EntryCounts {
        deliveries: 0,
        failures: 0,
        views: 0,
    };

    /// The entries of a log.
    fn of_log(log: &[LogEntry]) -> EntryCounts
        ensures value { result ≡ counts_of log.now }
        ensures few { AreAtMost (2 ^ 64) result }
    {
        EntryCounts {
            deliveries: deliveries_in(log) as u128,
            failures: failures_in(log) as u128,
            views: views_in(log) as u128,
        }
    }

    fn plus(self, other: EntryCounts) -> EntryCounts
        requires few { AreAtMost (2 ^ 100) self }
        requires few_more { AreAtMost (2 ^ 100) other }
        ensures { result ≡ record {
          deliveries = self.deliveries + other.deliveries;
          failures = self.failures + other.failures;
          views = self.views + other.views;
        } }
    {
        EntryCounts {
            deliveries: self.deliveries + other.deliveries,
            failures: self.failures + other.failures,
            views: self.views + other.views,
        }
    }

    /// The entries of the logs of a node's incarnations.
    fn of_node(world: &World, node: NodeId) -> EntryCounts
        requires { node < world.now.scenario.params.nodes }
        ensures value { result ≡ counts_of (entries_of_node world.now.scenario (state_of world.now) node) }
        ensures few { AreAtMost (2 ^ 72) result }
    {
        let mut counts = EntryCounts::NONE;
        for inc in 0..=world.incarnation(node) {
            counts = counts.plus(EntryCounts::of_log(world.log_of(node, inc)));
        }
        counts
    }

    /// The entries of the logs of all nodes, of those that stopped too.
    pub(crate) fn of_world(world: &World) -> EntryCounts
        ensures { result ≡ counts_of (all_entries world.now.scenario (state_of world.now)) }
    {
        let mut counts = EntryCounts::NONE;
        for number in 0..world.scenario().params().nodes {
            counts = counts.plus(EntryCounts::of_node(world, NodeId::new(number).unwrap()));
        }
        counts
    }
}
