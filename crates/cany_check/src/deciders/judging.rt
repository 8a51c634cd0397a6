//! All that is found of an account, and what is judged of it.
ghost use Rattle.std.specs.Prelude.{◌≡◌, if◌then◌else◌, length, map, IfOk};
ghost use Rattle.std.specs.List.{list_any};
ghost use Rattle.cany_base.specs.declared.message.Service.TheVariants.{Ed, Rel, Tot};
ghost use Rattle.cany_model.specs.Rules.Messages.{is_service};
ghost use Rattle.cany_check.specs.Accounts.Account.{AccountParts};
ghost use Rattle.cany_check.specs.Deciding.Findings.{AreFindings};
ghost use Rattle.cany_check.specs.Deciding.Judged.{fates_by, is_judgement, judged, with_fate};
ghost use Rattle.cany_check.specs.Deciding.Verdict.{broken_if, judgement, of_fates, status};

use crate::account::Account;
use crate::account::record::MessageRecord;
use crate::deciders::accuracy::accusations;
use crate::deciders::findings::{Accusation, EntryAt, Fate, Judgement, Part, Parting, Told, Views};
use crate::deciders::integrity::wrong_entry;
use crate::deciders::messages::message_fates;
use crate::deciders::order::parting;
use crate::deciders::signs::sign_fates;
use crate::deciders::views::view_partings;
use crate::status::{BROKEN, OPEN};
use cany_base::{Memory, Service};
use cany_command::status::DONE;
use std::alloc::Global;
use std::marker::Model;

/// The parts of the promise, in the order of the head of a verdict.
pub(crate) const PARTS: [Part; 8] = [
    Part::Integrity,
    Part::Agreement(Service::Ed),
    Part::Agreement(Service::Rel),
    Part::Agreement(Service::Tot),
    Part::Order,
    Part::Views,
    Part::Signs,
    Part::Accuracy,
];

/// All that is found of an account. What is judged of it takes no memory.
#[derive(Drop)]
pub struct Findings {
    wrong: Option<EntryAt>,
    messages: Vec<Told>,
    signs: Vec<Told>,
    parting: Option<Parting>,
    views: Views,
    accusations: Vec<Accusation>,
    ed: Judgement,
    rel: Judgement,
    tot: Judgement,
}

impl Model for Findings {
    ghost use Rattle.cany_check.specs.Deciding.Findings.{FoundParts};

    ghost Value = { FoundParts };

    ghost use Rattle.cany_check.specs.Deciding.FindingsFields.{found_parts};

    ghost view = { found_parts };
}

/// What is judged so far of some fates, with one more.
fn with_fate(so_far: Judgement, fate: Fate) -> Judgement
    ensures { result ≡ with_fate so_far fate }
{
    match (so_far, fate) {
        (Judgement::Broken, _) | (_, Fate::Apart) => Judgement::Broken,
        (Judgement::Open, _) | (_, Fate::Open) => Judgement::Open,
        _ => Judgement::Held,
    }
}

/// What is judged of the fates of signs.
fn of_signs(told: &[Told]) -> Judgement
    ensures { result ≡ of_fates (map (λ t. t.fate) told.now) }
{
    let mut judged = Judgement::Held;
    for sign in told {
        judged = with_fate(judged, sign.fate);
    }
    judged
}

/// What is judged of the messages of each service.
#[derive(Clone, Copy)]
struct Agreements {
    ed: Judgement,
    rel: Judgement,
    tot: Judgement,
}

/// What is judged so far, with the fate of one more message, of this service.
#[tactic(auto, unfolding(cany_model::specs::Rules::Messages::is_service, cany_model::specs::Bus::Frames::same_class))]
fn with_message(so_far: Agreements, service: Service, fate: Fate) -> Agreements
    ensures ed { result.ed ≡ (if is_service service Ed then with_fate so_far.ed fate else so_far.ed) }
    ensures rel { result.rel ≡ (if is_service service Rel then with_fate so_far.rel fate else so_far.rel) }
    ensures tot { result.tot ≡ (if is_service service Tot then with_fate so_far.tot fate else so_far.tot) }
{
    let mut judged = so_far;
    match service {
        Service::Ed => judged.ed = with_fate(so_far.ed, fate),
        Service::Rel => judged.rel = with_fate(so_far.rel, fate),
        Service::Tot => judged.tot = with_fate(so_far.tot, fate),
    }
    judged
}

/// What is judged of the messages of each service, of which this is told in the same order.
fn of_messages(messages: &[MessageRecord], told: &[Told]) -> Agreements
    requires { length told.now ≡ length messages.now }
    ensures ed { result.ed ≡ of_fates (fates_by Ed messages.now told.now) }
    ensures rel { result.rel ≡ of_fates (fates_by Rel messages.now told.now) }
    ensures tot { result.tot ≡ of_fates (fates_by Tot messages.now told.now) }
{
    let mut judged = Agreements {
        ed: Judgement::Held,
        rel: Judgement::Held,
        tot: Judgement::Held,
    };
    for i in 0..messages.len() {
        judged = with_message(judged, messages[i].service, told[i].fate);
    }
    judged
}

/// All that is found of an account.
///
/// Promise: the findings are those of the definitions: the first wrong entry, the fates of messages
/// and signs, the first parting, the views, and the accusations.
///
/// Shown by: `an_account_is_judged`, `verdict_all_held`, `verdict_views_are_apart`.
///
/// # Errors
///
/// `Memory`: out of memory.
pub fn judge(alloc: Global, account: &Account<'_>) -> Result<Findings, Memory>
    ensures { IfOk result (λ found. AreFindings account.now found) }
{
    // What lets go of nothing comes first: an early return lets go of all that was found before it.
    let wrong = wrong_entry(alloc, account)?;
    let parting = parting(alloc, account)?;
    let messages = message_fates(alloc, account)?;
    let agreements = of_messages(account.messages(), messages.as_slice());
    let signs = sign_fates(alloc, account)?;
    let views = view_partings(alloc, account)?;
    let accusations = accusations(alloc, account)?;
    Ok(Findings {
        wrong,
        messages,
        signs,
        parting,
        views,
        accusations,
        ed: agreements.ed,
        rel: agreements.rel,
        tot: agreements.tot,
    })
}

/// Broken, where this holds.
fn broken_if(broken: bool) -> Judgement
    ensures { result ≡ broken_if broken }
{
    if broken {
        Judgement::Broken
    } else {
        Judgement::Held
    }
}

impl Findings {
    ghost use Rattle.cany_check.specs.Deciding.Findings.{FoundParts};

    /// The first wrong entry of a log, if there is one.
    ///
    /// Promise: the first wrong entry that was found.
    ///
    /// Answers: `None` exactly where none was found.
    ///
    /// Shown by: `an_account_is_judged`, `verdict_all_held`.
    pub fn wrong_entry(&self) -> Option<EntryAt>
        ensures { result ≡ self.now.wrong }
    {
        self.wrong
    }

    /// What is told of each message, in the order of the account.
    ///
    /// Promise: what was found of each message.
    ///
    /// Shown by: `an_account_is_judged`, `verdict_messages_are_open`.
    pub fn messages(&self) -> &[Told]
        ensures { result.now ≡ self.now.messages }
    {
        self.messages.as_slice()
    }

    /// What is told of each failure sign, in the order of the account.
    ///
    /// Promise: what was found of each sign.
    ///
    /// Shown by: `verdict_sign_is_open`, `verdict_sign_at_one_node`.
    pub fn signs(&self) -> &[Told]
        ensures { result.now ≡ self.now.signs }
    {
        self.signs.as_slice()
    }

    /// Where two correct nodes part, if they do.
    ///
    /// Promise: the parting that was found.
    ///
    /// Answers: `None` exactly where none was found.
    ///
    /// Shown by: `an_account_is_broken`, `verdict_order_is_parted`.
    pub fn parting(&self) -> Option<Parting>
        ensures { result ≡ self.now.parting }
    {
        self.parting
    }

    /// What is found of the views.
    ///
    /// Promise: how many numbers of views were found, and which are apart.
    ///
    /// Shown by: `an_account_is_judged`, `verdict_views_are_apart`.
    pub fn views(&self) -> &Views
        ensures numbers { result.now.numbers ≡ self.now.numbers }
        ensures apart { result.now.apart.items ≡ self.now.views }
    {
        &self.views
    }

    /// The nodes that ran all the time and were taken for failed, ascending.
    ///
    /// Promise: the accusations that were found.
    ///
    /// Shown by: `an_account_is_judged`, `verdict_views_are_apart`.
    pub fn accusations(&self) -> &[Accusation]
        ensures { result.now ≡ self.now.accusations }
    {
        self.accusations.as_slice()
    }

    /// What is judged of a part of the promise.
    ///
    /// Promise: of each account with these findings it is the judgement of the definition.
    ///
    /// Answers: `Broken` exactly where, by part: an entry is wrong; a message of the service is
    /// apart; two nodes part; the views of a number are apart; a sign is apart; a node is accused.
    /// Else `Open` exactly where a message of the service, or a sign, is open. Else `Held`.
    ///
    /// Shown by: `verdict_all_held`, `verdict_views_are_apart`, `verdict_sign_is_open`,
    /// `verdict_messages_are_open`, `always_held`.
    pub fn judgement(&self, part: Part) -> Judgement
        ensures { (a : AccountParts) → AreFindings a self.now → result ≡ judgement a part }
    {
        self.judged(part)
    }

    /// What is judged of a part of the promise, by what is found.
    fn judged(&self, part: Part) -> Judgement
        ensures { result ≡ judged self.now part }
    {
        match part {
            Part::Integrity => broken_if(self.wrong.is_some()),
            Part::Agreement(Service::Ed) => self.ed,
            Part::Agreement(Service::Rel) => self.rel,
            Part::Agreement(Service::Tot) => self.tot,
            Part::Order => broken_if(self.parting.is_some()),
            Part::Views => broken_if(!self.views.apart.as_slice().is_empty()),
            Part::Signs => of_signs(self.signs.as_slice()),
            Part::Accuracy => broken_if(!self.accusations.as_slice().is_empty()),
        }
    }

    /// Whether this is judged of one of these parts.
    fn is_any(&self, parts: &[Part], wanted: Judgement) -> bool
        ensures { result ≡ list_any (λ part. is_judgement wanted (judged self.now part)) parts.now }
    {
        for part in parts {
            if self.judged(*part) == wanted {
                return true;
            }
        }
        false
    }

    /// The status: `BROKEN` where a part is broken, else `OPEN` where one is open, else `DONE`.
    ///
    /// Promise: of each account with these findings it is the status of the definition.
    ///
    /// Answers: 9 exactly where a part is `Broken`. Else 10 exactly where one is `Open`. Else 0.
    ///
    /// Shown by: `verdict_all_held`, `verdict_order_is_parted`, `verdict_sign_is_open`,
    /// `ten_hides_nine`.
    pub fn status(&self) -> u8
        ensures { (a : AccountParts) → AreFindings a self.now → result ≡ status a }
    {
        if self.is_any(&PARTS, Judgement::Broken) {
            BROKEN
        } else if self.is_any(&PARTS, Judgement::Open) {
            OPEN
        } else {
            DONE
        }
    }
}
