//! What a node knows of the site, in closed form: the definitions of the model make it turn by
//! turn, and these laws say of each part what it is of all that was read. No crate stands on it.
#![tactic(auto)]

ghost use Rattle.std.specs.Prelude.{◌≡◌, ◌<◌, ◌≤◌, ◌+◌, ◌*◌, ◌↔◌, ℕ, suc, true, List, ◌∷◌, length, None, unwrap_or};
ghost use Rattle.cany_base.specs.Limits.{most_nodes};
ghost use Rattle.cany_base.specs.declared.notice.NoticeKind.{NoticeKind};
ghost use Rattle.cany_base.specs.Nodes.{has};
ghost use Rattle.cany_base.specs.Params.{MeetsFormulas};
ghost use Rattle.cany_base.specs.Scenario.{ScenarioParts};
ghost use Rattle.cany_knowledge.specs.ClosedForms.{HoldsSince, IsGreatest, installed_in, is_with, is_without, joins_in, leaves_in, members_of, shows_life_in, shows_own_life_in, vector_of_cycle};
ghost use Rattle.cany_model.specs.Rules.KnowledgeOf.{knowledge_of};

/// The slot in which another node last showed life, as a node knows it.
///
/// Promise: it is the greatest slot in which the node got a frame of the other node that shows
/// life, or in which the other node came into its view; 0 if there is none.
///
/// Shown by: `an_admission_is_no_life`.
pub fn shown_is_the_last_slot()
    ensures { (scenario : ScenarioParts) (i r : ℕ) (past : List NoticeKind) → r < most_nodes
        → IsGreatest (shows_life_in scenario i r) past ((knowledge_of scenario i past).shown r) }
{}

/// The slot of a node's own last life, as it knows it.
///
/// Promise: it is the greatest slot in which it read that it had sent a frame that shows its life,
/// or in which it came into its own view; 0 if there is none.
pub fn last_is_the_last_slot()
    ensures { (scenario : ScenarioParts) (i : ℕ) (past : List NoticeKind) → i < most_nodes
        → IsGreatest (shows_own_life_in scenario i) past (knowledge_of scenario i past).last }
{}

/// The vector of a node in a cycle, from the start on and before the end.
///
/// Promise: let the parameters meet the formulas, and a node have read the start of a cycle k ≥ 1,
/// but not its end. Its vector is what it started with, met with all vectors of the cycle that it
/// got since (`vector_of_cycle`).
///
/// Shown by: `a_vector_of_the_start_slot_counts`.
pub fn vector_is_all_that_was_got()
    ensures { (scenario : ScenarioParts) (i k : ℕ) (past : List NoticeKind) → MeetsFormulas scenario.params → 0 < k
        → k * scenario.params.cycle < length past → length past ≤ k * scenario.params.cycle + scenario.params.bound
        → (knowledge_of scenario i past).vector ≡ vector_of_cycle scenario i k past }
{}

/// When a node has no vector.
///
/// Promise: let the parameters meet the formulas. A node has no vector before it has read the start
/// of cycle 1, nor from the end of a cycle to the start of the next.
pub fn a_vector_is_held_in_cycles_alone()
    ensures before { (scenario : ScenarioParts) (i : ℕ) (past : List NoticeKind) → MeetsFormulas scenario.params
        → length past ≤ scenario.params.cycle → (knowledge_of scenario i past).vector ≡ None }
    ensures between { (scenario : ScenarioParts) (i k : ℕ) (past : List NoticeKind) → MeetsFormulas scenario.params → 0 < k
        → k * scenario.params.cycle + scenario.params.bound < length past → length past ≤ k * scenario.params.cycle + scenario.params.cycle
        → (knowledge_of scenario i past).vector ≡ None }
{}

/// How the view of a node changes.
///
/// Promise: let the parameters meet the formulas. Where a cycle ends and the node has a vector
/// there, its view becomes this vector, with what it got in that slot too; elsewhere it stays.
pub fn view_is_the_vector()
    ensures { (scenario : ScenarioParts) (i : ℕ) (notice : NoticeKind) (older : List NoticeKind) → MeetsFormulas scenario.params
        → members_of scenario i (notice ∷ older) ≡ unwrap_or (installed_in scenario i (notice ∷ older)) (members_of scenario i older) }
{}

/// The joiners that a node knows.
///
/// Promise: let the parameters meet the formulas. They are those of which the node got a JOIN while
/// they were outside its view, and that stand in no vector that it installed since.
///
/// Shown by: `a_join_of_a_member_counts`.
pub fn joiners_are_those_heard()
    ensures { (scenario : ScenarioParts) (i r : ℕ) (past : List NoticeKind) → MeetsFormulas scenario.params → r < most_nodes
        → (has (knowledge_of scenario i past).joiners r ≡ true)
        ↔ HoldsSince (joins_in scenario i r) (λ read. is_with r (installed_in scenario i read)) past }
{}

/// The leavers that a node knows.
///
/// Promise: let the parameters meet the formulas. They are those of which the node read a LEAVE
/// while they were in its view, and that stand in each vector that it installed since.
pub fn leavers_are_those_heard()
    ensures { (scenario : ScenarioParts) (i r : ℕ) (past : List NoticeKind) → MeetsFormulas scenario.params → r < most_nodes
        → (has (knowledge_of scenario i past).leavers r ≡ true)
        ↔ HoldsSince (leaves_in scenario i r) (λ read. is_without r (installed_in scenario i read)) past }
{}
