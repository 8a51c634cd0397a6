ghost use Rattle.std.specs.Prelude.{◌≡◌};

use std::marker::{Brand, PhantomData};
use std::sync::ledger::Ledger;

/// The name of a ledger of turns, which tells the scenario that these are turns of.
///
/// A caller makes two blanks and works the yard in a function over two names, `L: Course` and
/// `B: Ledger`, which it calls with `Brand` for both.
pub trait Course: Ledger {
    ghost use Rattle.cany_base.specs.Scenario.{ScenarioParts};

    /// The scenario of the world with which the yard was started.
    ghost scenario: { ScenarioParts };
}

impl Course for Brand {
    ghost use Rattle.cany_yard.specs.Course.{no_scenario};

    ghost scenario = { no_scenario };
}

/// What the two names of a yard say: there is a part of the ledger of turns for each node, and one
/// of the ledger of slots.
#[derive(Drop)]
pub(crate) struct Names<L: Course, B: Ledger> {
    turns: PhantomData<L>,
    slots: PhantomData<B>,
    ghost each: { L.parts ≡ L.scenario.params.nodes },
    ghost one: { B.parts ≡ 1 },
}

impl<L: Course, B: Ledger> Names<L, B> {
    pub(crate) fn new() -> Names<L, B>
        requires each { L.parts ≡ L.scenario.params.nodes }
        requires one { B.parts ≡ 1 }
    {
        Names {
            turns: PhantomData,
            slots: PhantomData,
        }
    }

    /// Does nothing but tell what they say.
    pub(crate) fn tell(&self)
        ensures each { L.parts ≡ L.scenario.params.nodes }
        ensures one { B.parts ≡ 1 }
    {}
}
