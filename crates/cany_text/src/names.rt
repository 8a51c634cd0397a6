//! The words by which texts name classes, services, verdicts, parameters, tables, keys, and what
//! breaks the fault hypothesis.
ghost use Rattle.std.specs.Prelude.{◌≡◌, ◌≤◌, length};
ghost use Rattle.cany_text.specs.ReportLines as report;
ghost use Rattle.cany_text.specs.TextNames as text;

use crate::scenario_fault::{KeyName, TableName};
use cany_base::{Class, ParamName, Service, Verdict};
use cany_model::BreakKind;

/// The name of a class, as `ed`.
///
/// Promise: the name of the class in texts, of at most 7 bytes.
#[tactic(auto, unfolding(crate::specs::TextNames::class_name))]
pub fn class_name(class: Class) -> &'static str
    ensures name { result.now ≡ text.class_name class }
    ensures short { length result.now ≤ 7 }
{
    match class {
        Class::Accept => "accept",
        Class::Rha => "rha",
        Class::Els => "els",
        Class::Fda => "fda",
        Class::Join => "join",
        Class::Leave => "leave",
        Class::Confirm => "confirm",
        Class::Tot => "tot",
        Class::Rel => "rel",
        Class::Ed => "ed",
    }
}

/// The name of a service, as `tot`.
///
/// Promise: the name of the service in texts, of at most 3 bytes.
#[tactic(auto, unfolding(crate::specs::TextNames::service_name))]
pub fn service_name(service: Service) -> &'static str
    ensures name { result.now ≡ text.service_name service }
    ensures short { length result.now ≤ 3 }
{
    match service {
        Service::Ed => "ed",
        Service::Rel => "rel",
        Service::Tot => "tot",
    }
}

/// The name of a verdict, without the nodes that reject, as `partial`.
///
/// Promise: the name of the verdict in texts, of at most 7 bytes.
#[tactic(auto, unfolding(crate::specs::TextNames::verdict_name))]
pub fn verdict_name(verdict: Verdict) -> &'static str
    ensures name { result.now ≡ text.verdict_name verdict }
    ensures short { length result.now ≤ 7 }
{
    match verdict {
        Verdict::Clean => "clean",
        Verdict::Lost => "lost",
        Verdict::Partial(_) => "partial",
        Verdict::Silent(_) => "silent",
    }
}

/// The name of a parameter that a formula bounds, as `bound`.
///
/// Promise: the name of the parameter in texts, of at most 7 bytes.
#[tactic(auto, unfolding(crate::specs::TextNames::param_name))]
pub fn param_name(which: ParamName) -> &'static str
    ensures name { result.now ≡ text.param_name which }
    ensures short { length result.now ≤ 7 }
{
    match which {
        ParamName::Bound => "bound",
        ParamName::Cycle => "cycle",
        ParamName::Life => "life",
        ParamName::Silence => "silence",
        ParamName::Confirm => "confirm",
    }
}

/// The name of what breaks the fault hypothesis, as `omit`.
///
/// Promise: the name of the break in reports, of at most 6 bytes.
#[tactic(auto, unfolding(crate::specs::ReportLines::break_name))]
pub fn break_name(kind: BreakKind) -> &'static str
    ensures name { result.now ≡ report.break_name kind }
    ensures short { length result.now ≤ 6 }
{
    match kind {
        BreakKind::Silent => "silent",
        BreakKind::Omit => "omit",
        BreakKind::Errors => "errors",
    }
}

/// The name of a table, as `send`.
///
/// Promise: the name of the table in texts, of at most 7 bytes.
#[tactic(auto, unfolding(crate::specs::TextNames::table_name))]
pub fn table_name(table: TableName) -> &'static str
    ensures name { result.now ≡ text.table_name table }
    ensures short { length result.now ≤ 7 }
{
    match table {
        TableName::Top => "top",
        TableName::Send => "send",
        TableName::Fault => "fault",
        TableName::Join => "join",
        TableName::Leave => "leave",
        TableName::Restart => "restart",
    }
}

/// A key as it stands in a text, as `silence`.
///
/// Promise: the key as texts write it, of at most 7 bytes.
///
/// Shown by: `a_key_is_called_otherwise`.
#[tactic(auto, unfolding(crate::specs::TextNames::key_name))]
pub fn key_name(key: KeyName) -> &'static str
    ensures name { result.now ≡ text.key_name key }
    ensures short { length result.now ≤ 7 }
{
    match key {
        KeyName::Format => "format",
        KeyName::Nodes => "nodes",
        KeyName::Slots => "slots",
        KeyName::Lag => "lag",
        KeyName::Omit => "omit",
        KeyName::Errors => "errors",
        KeyName::Bound => "bound",
        KeyName::Cycle => "cycle",
        KeyName::Life => "life",
        KeyName::Silence => "silence",
        KeyName::Confirm => "confirm",
        KeyName::Members => "members",
        KeyName::Send => "send",
        KeyName::Fault => "fault",
        KeyName::Join => "join",
        KeyName::Leave => "leave",
        KeyName::Restart => "restart",
        KeyName::Journal => "journal",
        KeyName::Slot => "slot",
        KeyName::Node => "node",
        KeyName::Service => "service",
        KeyName::DataKey => "data",
        KeyName::Class => "class",
        KeyName::Number => "number",
        KeyName::Nth => "nth",
        KeyName::Verdict => "verdict",
        KeyName::Reject => "reject",
        KeyName::Stop => "stop",
    }
}
