//! Words of the text, each of which names one thing of a few.
ghost use Rattle.std.specs.Prelude.{◌≡◌, ℕ, List, option_and_then};
ghost use Rattle.toml.specs.Data.{as_str};
ghost use Rattle.toml.specs.View.{view};
ghost use Rattle.cany_text.specs.TextNames.{named};
ghost use Rattle.cany_text.specs.TomlKeys.{of_kind};

use crate::entry::wrong_kind;
use cany_text::{Position, ScenarioFault};
use toml::Value;

/// What a text names by a word.
pub(crate) trait Named: Copy {
    /// The word.
    ghost word: { Self → List ℕ };

    /// What the text calls it.
    fn name(self) -> &'static str
        ensures { result.now ≡ word self };
}

/// The one of these that the value names.
pub(crate) fn one_of<T: Named>(these: &[T], at: Position, value: &Value) -> Result<T, ScenarioFault>
    ensures { result ≡ of_kind at (option_and_then (named T.word these.now) (as_str (view value.now))) }
{
    let name = value.as_str().ok_or(wrong_kind(at))?;
    find_named(these, name).ok_or(wrong_kind(at))
}

/// The first of these that is called so.
fn find_named<T: Named>(these: &[T], name: &str) -> Option<T>
    ensures { result ≡ named T.word these.now name.now }
{
    for one in these {
        if one.name() == name {
            return Some(*one);
        }
    }
    None
}
