//! The account of a run.
ghost use Rattle.std.specs.Prelude.{◌≡◌, true, IfOk};
ghost use Rattle.cany_check.specs.Accounts.Account.{account_of};
ghost use Rattle.cany_model.specs.Runs.Run.{has_ended};
ghost use Rattle.cany_world.specs.World.{state_of};

use crate::account::Account;
use crate::account::log_records::records_of_logs;
use crate::account::message_records::records_of_messages;
use crate::account::sign_records::records_of_signs;
use cany_base::Memory;
use cany_world::World;
use std::alloc::Global;

/// The account of an ended run. The world lends it the entries of the logs.
///
/// It takes memory for the records and, while it is made, for a table of the messages and one of
/// the failure signs. The time is linear in the slots, the entries, and messages times nodes.
///
/// Promise: the account is exactly that of the run.
///
/// Shown by: `an_account_is_judged`, `verdict_all_held`, `verdict_messages_are_open`,
/// `verdict_order_since_a_restart`.
///
/// # Errors
///
/// `Memory`: out of memory.
pub fn account_of(alloc: Global, world: &World) -> Result<Account<'_>, Memory>
    requires { has_ended world.now.scenario (state_of world.now) ≡ true }
    ensures { IfOk result (λ account. account ≡ account_of world.now.scenario (state_of world.now)) }
{
    let params = *world.scenario().params();
    let messages = records_of_messages(alloc, world)?;
    let logs = records_of_logs(alloc, world)?;
    let signs = records_of_signs(alloc, world, logs.as_slice())?;
    Ok(Account::of_parts(params, messages, logs, signs))
}
