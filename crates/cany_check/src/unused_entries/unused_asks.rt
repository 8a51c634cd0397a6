//! The scripted joins and leaves that did nothing.
ghost use Rattle.std.specs.Prelude.{◌≡◌, ◌++◌, true, option_map, OnOk};
ghost use Rattle.cany_base.specs.Scenario.{IsAskOf};
ghost use Rattle.cany_world.specs.World.{state_of};
ghost use Rattle.cany_check.specs.Idle.Asks.{ask_class, ask_entry, asks_of};
ghost use Rattle.cany_check.specs.Idle.Attempts.{AreAttemptsOf, asked_frame, is_named};
ghost use Rattle.cany_check.specs.Idle.Unused.{as_list, is_carried_later, unused_ask, with_places};

use crate::unused_entries::attempts::{AttemptSlots, asked_identity};
use crate::unused_entries::finding::push_found;
use crate::unused_entries::presence::missed;
use crate::unused_entries::unused_entry::{NoAsk, Unused, UnusedEntry};
use cany_base::{Class, Memory, NodeAsk, Scenario};
use cany_world::World;

/// Joins or leaves, which are looked at alike.
#[derive(Clone, Copy)]
pub(crate) enum Asks {
    Joins,
    Leaves,
}

impl Asks {
    /// The class of the frames by which nodes ask.
    fn class(self) -> Class
        ensures { result ≡ ask_class self }
    {
        match self {
            Asks::Joins => Class::Join,
            Asks::Leaves => Class::Leave,
        }
    }

    /// Those of a scenario.
    fn among(self, scenario: &Scenario) -> &[NodeAsk]
        ensures { result.now ≡ asks_of self scenario.now }
    {
        match self {
            Asks::Joins => scenario.joins(),
            Asks::Leaves => scenario.leaves(),
        }
    }

    /// What is found of an ask, by why it did nothing.
    fn entry(self, why: Option<NoAsk>) -> Option<UnusedEntry>
        ensures { result ≡ option_map (ask_entry self) why }
    {
        match self {
            Asks::Joins => why.map(UnusedEntry::Join),
            Asks::Leaves => why.map(UnusedEntry::Leave),
        }
    }
}

/// Whether a later slot carried the frame of the join or leave.
fn is_carried_later(world: &World, attempts: &AttemptSlots, class: Class, ask: &NodeAsk) -> bool
    requires ask { IsAskOf world.now.scenario.params ask.now }
    requires attempts { AreAttemptsOf world.now attempts.now }
    requires named { is_named world.now.scenario (asked_frame world.now.scenario.params class ask.now) ≡ true }
    ensures { result ≡ is_carried_later world.now.scenario (state_of world.now) class ask.now }
{
    match attempts.last(&asked_identity(world.scenario().params(), class, ask)) {
        Some(last) => ask.slot < last,
        None => false,
    }
}

/// Why a join or leave did nothing, if so.
fn unused_ask(world: &World, attempts: &AttemptSlots, class: Class, ask: &NodeAsk) -> Option<NoAsk>
    requires ask { IsAskOf world.now.scenario.params ask.now }
    requires attempts { AreAttemptsOf world.now attempts.now }
    requires named { is_named world.now.scenario (asked_frame world.now.scenario.params class ask.now) ≡ true }
    ensures { result ≡ unused_ask world.now.scenario (state_of world.now) class ask.now }
{
    let why = missed(world, ask.slot, ask.node);
    if why.is_some() || is_carried_later(world, attempts, class, ask) {
        return why;
    }
    Some(NoAsk::NeverCarried)
}

/// Appends the joins, or the leaves, that did nothing, in file order.
pub(crate) fn push_asks(
    world: &World,
    attempts: &AttemptSlots,
    kind: Asks,
    found: &mut Vec<Unused>,
) -> Result<(), Memory>
    requires { AreAttemptsOf world.now attempts.now }
    ensures { OnOk result (found.new.items ≡ found.old.items
        ++ with_places (λ ask. as_list (unused_ask world.now.scenario (state_of world.now) (ask_class kind) ask)) (ask_entry kind) 0 (asks_of kind world.now.scenario)) }
{
    let scenario = world.scenario();
    // It is the contract of this call that says that the scenario is legal.
    let _legal = scenario.params();
    let asks = kind.among(scenario);
    for place in 0..asks.len() {
        let why = unused_ask(world, attempts, kind.class(), &asks[place]);
        push_found(found, place, kind.entry(why))?;
    }
    Ok(())
}
