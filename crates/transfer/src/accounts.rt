//! The accounts, with the balances that the program wrote last.

use std::alloc::Global;
use tikv_client::NoMemory;

/// An account. There is no balance once it is not known.
#[derive(Drop)]
struct Account {
    name: String,
    balance: Option<u64>,
}

#[derive(Drop)]
pub struct Accounts {
    accounts: Vec<Account>,
}

impl Accounts {
    pub fn new(alloc: Global) -> Accounts {
        Accounts {
            accounts: Vec::new(alloc),
        }
    }

    fn place(&self, name: &str) -> Option<usize> {
        self.accounts
            .iter()
            .position(|account| account.name.as_str() == name)
    }

    pub fn has(&self, name: &str) -> bool {
        self.place(name).is_some()
    }

    /// The balance of an account, where there is such an account and its balance is known.
    pub fn balance(&self, name: &str) -> Option<u64> {
        let place = self.place(name)?;
        self.accounts.get(place)?.balance
    }

    /// The balance is this from here on. None where it is not known.
    pub fn set(&mut self, alloc: Global, name: &str, balance: Option<u64>) -> Result<(), NoMemory> {
        for account in self.accounts.iter_mut() {
            if account.name.as_str() == name {
                account.balance = balance;
                return Ok(());
            }
        }
        let name = String::from_str(alloc, name)?;
        self.accounts.push(Account { name, balance })?;
        Ok(())
    }
}
