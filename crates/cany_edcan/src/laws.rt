//! What ties EDCAN to the definitions of a run, as the contract of a function that does nothing.
ghost use Rattle.std.specs.Prelude.{List};
ghost use Rattle.cany_base.specs.declared.notice.NoticeKind.{NoticeKind};
ghost use Rattle.cany_base.specs.Scenario.{ScenarioParts};
ghost use Rattle.cany_edcan.specs.Edcan.{IsEdcanOf, Rests};

use crate::edcan::Edcan;

/// EDCAN has nothing to do in an idle slot.
///
/// Promise: whatever history a value stands for, it stands as it is for this history and one idle
/// notice more, at which EDCAN has no effect.
pub fn rests(edcan: &Edcan)
    ensures { (scenario : ScenarioParts) (past : List NoticeKind) → IsEdcanOf scenario edcan.now.node past edcan.now
        → Rests scenario edcan.now.node past edcan.now }
{}
