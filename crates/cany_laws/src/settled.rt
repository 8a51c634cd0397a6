//! Laws of settled messages.
ghost use Rattle.std.specs.Prelude.{◌≡◌, ◌<◌, true, List, Contains};
ghost use Rattle.cany_base.specs.declared.step.Step.{Step};
ghost use Rattle.cany_base.specs.Scenario.{IsLegalScenario, ScenarioParts};
ghost use Rattle.cany_model.specs.Bus.State.{slots_run};
ghost use Rattle.cany_model.specs.Promises.Settled.{is_settled};
ghost use Rattle.cany_model.specs.Rules.Messages.{Message, messages_of};
ghost use Rattle.cany_model.specs.Runs.Run.{run};
ghost use Rattle.cany_laws.specs.Final.{IsFinal};

/// Settled is for ever, so nobody need look again. It holds of every journal, with restarts, and
/// under any faults, within the hypothesis or not.
///
/// The premise on the scripted slot is needed where the origin is stopped, and may start again
/// before it.
///
/// Promise: let a message of a legal scenario be settled after a front of a journal in which its
/// scripted slot ran. Whatever comes after, it is settled wherever all is read again, no later slot
/// carries a frame of it, and no log has a delivery of it in a later slot (`IsFinal`).
///
/// Shown by: rows SettledRows of cany_law_rows.
pub fn settled_is_final()
    ensures { (scenario : ScenarioParts) (front rest : List Step) → IsLegalScenario scenario
        → (m : Message) → Contains (messages_of scenario.sends) m → m.slot < slots_run (run scenario front)
        → is_settled scenario (run scenario front) m ≡ true → IsFinal scenario front rest m }
{}
