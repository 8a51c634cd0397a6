//! The lines of the failure signs, in the order of the account.
ghost use Rattle.std.specs.Prelude.{◌≡◌, ◌≤◌};
ghost use Rattle.std.specs.List.{concat};
ghost use Rattle.cany_check.specs.Texts.CheckLines as line;
ghost use Rattle.cany_check.specs.Texts.CheckText.{sign_lines};
ghost use Rattle.cany_check.specs.Deciding.Fates.{sign_fates};
ghost use Rattle.cany_check.specs.Texts.FateParts.{fate_room, fate_texts, most_fate_bytes};
ghost use Rattle.cany_log.specs.Written.{IsWritten};

use crate::account::Account;
use crate::account::record::SignRecord;
use crate::deciders::findings::{Fate, Told};
use crate::text::fate_fields::{
    FateFields, apart_fields, first_of, first_or_dash, last_if_any, named, named_set,
};
use cany_io::{Failed, Sink};
use cany_log::{TextField, write_line};

/// What became of a sign.
fn fate_fields(sign: &SignRecord, told: &Told) -> FateFields
    ensures texts { fate_texts result ≡ line.sign_fate_fields sign.now told.now told.now.fate }
    ensures short { fate_room result ≤ most_fate_bytes }
{
    match told.fate {
        Fate::All => named("all"),
        Fate::Nobody => named("none"),
        Fate::Apart => apart_fields(told),
        Fate::Open => named_set("open waits", sign.waits),
    }
}

/// Writes the line of a sign.
fn write_sign<K: Sink>(sign: &SignRecord, told: &Told, sink: &mut K) -> Result<(), Failed>
    ensures { IsWritten (line.sign_line sign.now told.now) result
        (K.taken sink.old) (K.taken sink.new) (K.faults sink.old) (K.faults sink.new) }
{
    let fate = fate_fields(sign, told);
    write_line(
        "sign",
        &[
            TextField::Number(u64::from(sign.node.get())),
            TextField::Number(u64::from(sign.cycle)),
            fate.first,
            fate.second,
            fate.third,
            fate.fourth,
            fate.fifth,
            TextField::Text("carried"),
            first_or_dash(sign.carried),
            last_if_any(sign.carried),
            TextField::NumberIfAny("known", first_of(told.slots)),
            last_if_any(told.slots),
        ],
        sink,
    )
}

/// Writes the lines of the signs of the account.
pub(crate) fn write_signs<K: Sink>(
    account: &Account<'_>,
    told: &[Told],
    sink: &mut K,
) -> Result<(), Failed>
    requires { told.now ≡ sign_fates account.now }
    ensures { IsWritten (concat (sign_lines account.now)) result
        (K.taken sink.old) (K.taken sink.new) (K.faults sink.old) (K.faults sink.new) }
{
    for (i, sign) in account.signs().iter().enumerate() {
        write_sign(sign, &told[i], sink)?;
    }
    Ok(())
}
