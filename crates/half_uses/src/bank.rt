//! Accounts, between which money is moved and none is made or lost.
ghost use Rattle.std.specs.Map.{values_of};
ghost use Rattle.std.specs.Prelude.{◌≡◌, ◌+◌, ◌^◌, ◌<◌, true, false, [], length, sum, IfErr, OnOk, OnErr};
ghost use Rattle.halfbrown.specs.Pairs.{value_of, holds, put, swap_out};
ghost use Rattle.half_uses.specs.Bank.{are_known, moved, IsDeclined};

use halfbrown::{HashMap, Refused};
use std::alloc::Global;
use std::hash::Hash;

/// Why no money was moved.
#[derive(Debug, PartialEq, Eq, Drop)]
pub enum Declined {
    /// There is no such account.
    Unknown,
    /// The account has less than the amount.
    TooLittle,
}

/// Accounts, each with its balance, and the sum of all balances.
///
/// ```
/// let mut bank = Bank::<u64>::new(alloc);
/// bank.open(1, 50)?;
/// bank.open(2, 0)?;
/// bank.transfer(&1, &2, 20)?; // 1 has 30, and 2 has 20
/// let declined = bank.transfer(&2, &1, 21); // `TooLittle`
/// ```
#[derive(Drop)]
pub struct Bank<A: Eq + Hash> {
    balances: HashMap<A, u64>,
    total: u64,
    ghost adds_up: { total ≡ sum (values_of balances.pairs) },
}

impl<A: Eq + Hash> Bank<A> {
    /// No accounts. It takes no memory.
    pub fn new(alloc: Global) -> Bank<A>
        ensures { result.balances.pairs ≡ [] }
    {
        Bank {
            balances: HashMap::new(alloc),
            total: 0,
        }
    }

    /// The sum of all balances. It takes one step.
    pub fn total(&self) -> u64
        ensures { result ≡ sum (values_of self.now.balances.pairs) }
    {
        self.total
    }

    /// The balance of an account, where there is one.
    pub fn balance(&self, account: &A) -> Option<u64>
        ensures { result ≡ value_of A.eq self.now.balances.pairs account.now }
    {
        self.balances.get(account).copied()
    }

    /// Opens an account, which must be new. Fails only where no capacity is left, and then nothing changes.
    #[tactic(auto, using(halfbrown::proofs::callers::Values::value_facts))]
    pub fn open(&mut self, account: A, balance: u64) -> Result<(), Refused<A, u64>>
        requires new { holds A.eq self.old.balances.pairs account ≡ false }
        requires fits { sum (values_of self.old.balances.pairs) + balance < 2 ^ 64 }
        ensures after { OnOk result (self.new.balances.pairs ≡ put A.eq self.old.balances.pairs account balance) }
        ensures full { OnErr result (length self.old.balances.pairs ≡ self.old.balances.capacity) }
        ensures err { OnErr result (self.new.balances ≡ self.old.balances) }
        ensures handed_back { IfErr result (λ refused. (refused.key ≡ account) × (refused.value ≡ balance)) }
    {
        self.balances.insert_nocheck(account, balance)?;
        self.total += balance;
        Ok(())
    }

    /// Closes an account, and returns its balance, or none where there is no such account.
    #[tactic(auto, using(halfbrown::proofs::callers::Values::value_facts))]
    pub fn close(&mut self, account: &A) -> Option<u64>
    where
        A: Drop,
        ensures balance { result ≡ value_of A.eq self.old.balances.pairs account.now }
        ensures after { self.new.balances.pairs ≡ swap_out A.eq self.old.balances.pairs account.now }
    {
        let balance = self.balances.remove(account)?;
        self.total -= balance;
        Some(balance)
    }

    /// Moves an amount from one account to another. The sum of all balances stays. An account that is unknown, or has less than
    /// the amount, declines it, and then nothing changes.
    #[tactic(auto, using(halfbrown::proofs::callers::Values::value_facts))]
    pub fn transfer(&mut self, from: &A, to: &A, amount: u64) -> Result<(), Declined>
        ensures total { sum (values_of self.new.balances.pairs) ≡ sum (values_of self.old.balances.pairs) }
        ensures known { OnOk result (are_known A.eq self.old.balances.pairs from.now to.now ≡ true) }
        ensures moved { OnOk result (self.new.balances.pairs
            ≡ moved A.eq self.old.balances.pairs from.now to.now amount) }
        ensures declined { IfErr result (IsDeclined A.eq self.old.balances.pairs from.now to.now amount) }
        ensures err { OnErr result (self.new.balances ≡ self.old.balances) }
    {
        if !self.balances.contains_key(to) {
            return Err(Declined::Unknown);
        }
        let Some(balance) = self.balances.get_mut(from) else {
            return Err(Declined::Unknown);
        };
        if *balance < amount {
            return Err(Declined::TooLittle);
        }
        *balance -= amount;
        // No balance is more than the total.
        let _total = self.total;
        if let Some(balance) = self.balances.get_mut(to) {
            *balance += amount;
        }
        Ok(())
    }
}
