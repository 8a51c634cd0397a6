//! The TOML document of a scenario text.
ghost use Rattle.std.specs.Prelude.{◌≡◌, ◌≢◌, Ok, Err, IfOk, IfErr};
ghost use Rattle.toml.specs.View.{table_view};
ghost use Rattle.cany_text.specs.declared.scenario_fault.ScenarioFault.TheVariants.{Memory};
ghost use Rattle.cany_text.specs.ScenarioText.{document_of};

use cany_text::ScenarioFault;
use std::alloc::Global;
use toml::Table;

/// The table that the bytes write, if they are UTF-8 and a TOML document.
pub(crate) fn read_document(alloc: Global, bytes: &[u8]) -> Result<Table, ScenarioFault>
    ensures ok { IfOk result (λ table. document_of bytes.now ≡ Ok (table_view table)) }
    ensures fault { IfErr result (λ fault. fault ≢ Memory → document_of bytes.now ≡ Err fault) }
{
    let Ok(text) = std::str::from_utf8(bytes) else {
        return Err(ScenarioFault::NotText);
    };
    match toml::table_from_str(alloc, text) {
        Ok(table) => Ok(table),
        Err(error) if error.is_memory() => Err(ScenarioFault::Memory),
        Err(_) => Err(ScenarioFault::NotToml),
    }
}
