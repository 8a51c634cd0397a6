//! What the value of a key can stand for.
ghost use Rattle.std.specs.Prelude.{◌≡◌};
ghost use Rattle.toml.specs.Data.{Data};
ghost use Rattle.toml.specs.View.{view};
ghost use Rattle.cany_text.specs.declared.scenario_fault.Position.{Position as AnyPosition};
ghost use Rattle.cany_text.specs.TomlKeys as toml;

use cany_text::{Position, ScenarioFault};
use toml::Value;

/// What the value of a key can stand for.
pub(crate) trait FromValue: Copy {
    /// What a value stands for, or its fault.
    ghost meaning: { AnyPosition → Data → toml.Read Self };

    /// What the value stands for.
    fn from_value(at: Position, value: &Value) -> Result<Self, ScenarioFault>
        ensures { result ≡ meaning at (view value.now) };
}
