//! What is told of the records of an account, one after another.
ghost use Rattle.std.specs.Prelude.{◌≡◌, ◌<◌, ◌≤◌, ℕ, length, map, slice_index_or, IfOk};
ghost use Rattle.cany_check.specs.declared.deciders.holders.Holders.{Holders as AnyHolders};

use crate::account::Account;
use crate::deciders::findings::Told;
use crate::deciders::holders::Holders;
use cany_base::Memory;
use std::alloc::Global;

/// A record of an account, of which is told what became of it.
pub(crate) trait HasFate {
    ghost use Rattle.cany_check.specs.declared.deciders.findings.Told.{Told};
    ghost use Rattle.cany_check.specs.declared.deciders.holders.Holders.{Holders};
    ghost use Rattle.cany_check.specs.Accounts.Account.{AccountParts};

    /// Who has it by the logs of an account.
    ghost held: { AccountParts → Self → Holders };

    /// What is told of it in an account.
    ghost told: { AccountParts → Self → Told };

    /// What is told of it, where these are its holders.
    fn told(&self, account: &Account<'_>, holders: Holders) -> Told
        requires { holders ≡ held account.now self.now }
        ensures { result ≡ told account.now self.now };
}

/// What is told of each of the records, of which these are the holders.
pub(crate) fn told_of_all<R: HasFate>(
    alloc: Global,
    account: &Account<'_>,
    records: &[R],
    holders: &[Holders],
) -> Result<Vec<Told>, Memory>
    requires count { length records.now ≤ length holders.now }
    requires each { (i : ℕ) (x : R) (held : AnyHolders) → i < length records.now → x ≡ slice_index_or records.now i x
        → held ≡ slice_index_or holders.now i held → held ≡ R.held account.now x }
    ensures { IfOk result (λ told. told.items ≡ map (R.told account.now) records.now) }
{
    let mut all = Vec::with_capacity(alloc, records.len())?;
    for i in 0..records.len() {
        all.push(records[i].told(account, holders[i]))?;
    }
    Ok(all)
}
