//! The account of a run: all that a verdict needs of it.
ghost use Rattle.std.specs.Prelude.{◌≡◌, map};
ghost use Rattle.cany_check.specs.Accounts.AccountFields.{log_parts};
ghost use Rattle.cany_check.specs.Accounts.Orderly.{IsOrderly};

pub(crate) mod entries;
pub(crate) mod log_records;
pub(crate) mod making;
pub(crate) mod message_records;
pub(crate) mod message_slots;
pub(crate) mod places;
pub(crate) mod record;
pub(crate) mod sign_records;

use crate::account::record::{LogRecord, MessageRecord, SignRecord};
use cany_base::Params;
use std::marker::Model;

/// What the messages, the logs and the failure signs of a run came to.
///
/// It may also be made of logs that were recorded elsewhere: a verdict looks at nothing else.
#[derive(Drop)]
pub struct Account<'a> {
    params: Params,
    messages: Vec<MessageRecord>,
    logs: Vec<LogRecord<'a>>,
    signs: Vec<SignRecord>,
}

impl<'a> Model for Account<'a> {
    ghost use Rattle.cany_check.specs.Accounts.Account.{AccountParts};

    ghost Value = { AccountParts };

    ghost use Rattle.cany_check.specs.Accounts.AccountFields.{account_parts, IsOrderlyInside};

    ghost view = { account_parts };

    ghost invariant = { IsOrderlyInside };
}

impl<'a> Account<'a> {
    ghost use Rattle.cany_check.specs.Accounts.Account.{AccountParts};

    /// The account of these parts: the messages in file order, the logs by ascending node and then
    /// incarnation, and the signs that running logs tell of, by ascending cycle and then node.
    ///
    /// Promise: the account has these parts. It asks that they are in order (`IsOrderly`).
    ///
    /// Shown by: `an_account_is_judged`, `verdict_all_held`.
    pub fn of_parts(
        params: Params,
        messages: Vec<MessageRecord>,
        logs: Vec<LogRecord<'a>>,
        signs: Vec<SignRecord>,
    ) -> Account<'a>
        requires { IsOrderly (record { params = params; messages = messages.items; logs = map log_parts logs.items; signs = signs.items }) }
        ensures { result ≡ record { params = params; messages = messages.items; logs = map log_parts logs.entry.items; signs = signs.items } }
    {
        Account {
            params,
            messages,
            logs,
            signs,
        }
    }

    /// The parameters of the run.
    ///
    /// Promise: the parameters of the account.
    ///
    /// Shown by: `an_account_is_judged`, `verdict_all_held`.
    pub fn params(&self) -> &Params
        ensures { result.now ≡ self.now.params }
    {
        &self.params
    }

    /// The messages of the scenario, in file order.
    ///
    /// Promise: the messages of the account, whose parts are in order.
    ///
    /// Shown by: `an_account_is_judged`, `verdict_messages_are_open`.
    pub fn messages(&self) -> &[MessageRecord]
        ensures messages { result.now ≡ self.now.messages }
        ensures orderly { IsOrderly self.now }
    {
        self.messages.as_slice()
    }

    /// The logs of the incarnations of the nodes, by ascending node and then incarnation.
    ///
    /// Promise: the logs of the account, whose parts are in order.
    ///
    /// Shown by: `an_account_is_judged`, `verdict_order_is_parted`.
    pub fn logs(&self) -> &[LogRecord<'a>]
        ensures logs { map log_parts result.now ≡ self.now.logs }
        ensures orderly { IsOrderly self.now }
    {
        self.logs.as_slice()
    }

    /// The failure signs that running logs tell of, by ascending cycle and then node.
    ///
    /// Promise: the signs of the account, whose parts are in order.
    ///
    /// Shown by: `verdict_sign_is_open`, `verdict_sign_at_one_node`.
    pub fn signs(&self) -> &[SignRecord]
        ensures signs { result.now ≡ self.now.signs }
        ensures orderly { IsOrderly self.now }
    {
        self.signs.as_slice()
    }
}
