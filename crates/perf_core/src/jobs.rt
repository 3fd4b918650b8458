//! Transactions: what each does to a memory, over any access. One that is not for the region of its memory does
//! nothing. Their numbers are short, so that little is written and read for each that is drawn.
ghost use Rattle.std.specs.Prelude.{◌≡◌, ◌<◌, ◌≤◌, None, Some, OnOk, IfErr};
ghost use Rattle.stm_model.specs.Logs.{SameMemories};
ghost use Rattle.data_effects.specs.Effects.{Under};
ghost use Rattle.data_regions.specs.Regions.{WellFormed};
ghost use Rattle.perf_core.specs.Jobs.{RegionFits};

use crate::plan::BALANCE;
use crate::rows::Row;
use crate::work_counts::Came;
use crate::work_region::WorkRegion;
use data_effects::insert::Insert as Inserted;
use data_regions::region::Region;
use stm_model::access::Access;
use stm_model::stop::Stop;
use tx_atomic::transaction::Transaction;
use tx_transaction::words::{read_sum, read_words, write_words};

/// The value goes to the account.
#[derive(Clone, Copy, Drop, Debug, PartialEq, Eq)]
pub struct Store {
    pub account: u32,
    pub value: u32,
}

/// The amount goes from one account to another, if the first has as much. Sums wrap modulo 2^64.
#[derive(Clone, Copy, Drop, Debug, PartialEq, Eq)]
pub struct Move {
    pub from: u32,
    pub to: u32,
    pub amount: u32,
}

/// Whether the first so many accounts have together what they began with, modulo 2^64.
#[derive(Clone, Copy, Drop, Debug, PartialEq, Eq)]
pub struct Sum {
    pub accounts: u32,
}

/// The account gains 1.
#[derive(Clone, Copy, Drop, Debug, PartialEq, Eq)]
pub struct Add {
    pub account: u32,
}

/// The sum of a row's words, modulo 2^64; then the word `at` of it gains 1.
#[derive(Clone, Copy, Drop, Debug, PartialEq, Eq)]
pub struct ScanRow {
    pub row: Row,
    pub at: usize,
}

/// Whether the set has the key.
#[derive(Clone, Copy, Drop, Debug, PartialEq, Eq)]
pub struct Contains {
    pub key: u32,
}

/// The set gains the key.
#[derive(Clone, Copy, Drop, Debug, PartialEq, Eq)]
pub struct Insert {
    pub key: u32,
}

/// The set loses the key.
#[derive(Clone, Copy, Drop, Debug, PartialEq, Eq)]
pub struct Remove {
    pub key: u32,
}

impl Transaction<WorkRegion> for Store {
    ghost use Rattle.std.specs.Prelude.{◌<◌};

    type Output = ();

    ghost precondition = { λ job work_region words. job.account < words };

    ghost postcondition = { λ job work_region words came log. Unit {0} };

    #[inline(always)]
    fn run<A: Access>(&self, work_region: &WorkRegion, memory: &mut A) -> Result<(), Stop> {
        match work_region.region {
            Region::Counter(_) => memory.write(self.account as usize, u64::from(self.value)),
            _ => Ok(()),
        }
    }
}

impl Transaction<WorkRegion> for Move {
    ghost use Rattle.std.specs.Prelude.{◌<◌};

    type Output = ();

    ghost precondition = { λ job work_region words. (job.from < words) × (job.to < words) };

    ghost postcondition = { λ job work_region words came log. Unit {0} };

    #[inline(always)]
    fn run<A: Access>(&self, work_region: &WorkRegion, memory: &mut A) -> Result<(), Stop> {
        match work_region.region {
            Region::Counter(_) => move_between(memory, *self),
            _ => Ok(()),
        }
    }
}

#[inline(always)]
fn move_between<A: Access>(memory: &mut A, job: Move) -> Result<(), Stop>
    requires going { A.stopped memory.old ≡ None }
    requires accounts { (job.from < A.words memory.old) × (job.to < A.words memory.old) }
    ensures goes { OnOk result (A.stopped memory.new ≡ None) }
    ensures stops { IfErr result (λ s. A.stopped memory.new ≡ Some s) }
    ensures good { SameMemories (A.good memory.old) (A.good memory.new) }
    ensures words { A.words memory.new ≡ A.words memory.old }
    ensures keeps { A.keeps memory.old memory.new }
{
    let (from, to) = (job.from as usize, job.to as usize);
    let amount = u64::from(job.amount);
    let payer = memory.read(from)?;
    if payer < amount {
        return Ok(());
    }
    memory.write(from, payer - amount)?;
    let payee = memory.read(to)?;
    memory.write(to, payee.wrapping_add(amount))?;
    Ok(())
}

impl Transaction<WorkRegion> for Sum {
    ghost use Rattle.std.specs.Prelude.{◌≤◌};

    type Output = bool;

    ghost precondition = { λ job work_region words. job.accounts ≤ words };

    ghost postcondition = { λ job work_region words came log. Unit {0} };

    #[inline(always)]
    fn run<A: Access>(&self, work_region: &WorkRegion, memory: &mut A) -> Result<bool, Stop> {
        match work_region.region {
            Region::Counter(_) => has_all(memory, self.accounts as usize),
            _ => Ok(true),
        }
    }
}

#[inline(always)]
fn has_all<A: Access>(memory: &mut A, accounts: usize) -> Result<bool, Stop>
    requires going { A.stopped memory.old ≡ None }
    requires within { accounts ≤ A.words memory.old }
    ensures goes { OnOk result (A.stopped memory.new ≡ None) }
    ensures stops { IfErr result (λ s. A.stopped memory.new ≡ Some s) }
    ensures good { SameMemories (A.good memory.old) (A.good memory.new) }
    ensures words { A.words memory.new ≡ A.words memory.old }
    ensures keeps { A.keeps memory.old memory.new }
{
    let mut sum: u64 = 0;
    for account in 0..accounts {
        let found = memory.read(account)?;
        sum = sum.wrapping_add(found);
    }
    Ok(sum == BALANCE.wrapping_mul(accounts as u64))
}

impl Transaction<WorkRegion> for Add {
    ghost use Rattle.std.specs.Prelude.{◌<◌};

    type Output = ();

    ghost precondition = { λ job work_region words. job.account < words };

    ghost postcondition = { λ job work_region words came log. Unit {0} };

    #[inline(always)]
    fn run<A: Access>(&self, work_region: &WorkRegion, memory: &mut A) -> Result<(), Stop> {
        match work_region.region {
            Region::Counter(_) => add_one(memory, self.account as usize),
            _ => Ok(()),
        }
    }
}

#[inline(always)]
fn add_one<A: Access>(memory: &mut A, account: usize) -> Result<(), Stop>
    requires going { A.stopped memory.old ≡ None }
    requires account { account < A.words memory.old }
    ensures goes { OnOk result (A.stopped memory.new ≡ None) }
    ensures stops { IfErr result (λ s. A.stopped memory.new ≡ Some s) }
    ensures good { SameMemories (A.good memory.old) (A.good memory.new) }
    ensures words { A.words memory.new ≡ A.words memory.old }
    ensures keeps { A.keeps memory.old memory.new }
{
    let found = memory.read(account)?;
    memory.write(account, found.wrapping_add(1))
}

impl Transaction<WorkRegion> for ScanRow {
    ghost use Rattle.perf_core.specs.Jobs.{IsInRow, IsScanned};

    type Output = u64;

    ghost precondition = { λ job work_region words. IsInRow job words };

    ghost postcondition = { λ job work_region words sum log. IsScanned work_region.region job words sum log };

    fn run<A: Access>(&self, work_region: &WorkRegion, memory: &mut A) -> Result<u64, Stop> {
        match work_region.region {
            Region::Counter(_) => {
                let sum = read_sum(memory, self.row.start..self.row.end)?;
                let [found] = read_words(memory, [self.at])?;
                write_words(memory, [(self.at, found.wrapping_add(1))])?;
                Ok(sum)
            }
            _ => Ok(0),
        }
    }
}

impl Transaction<WorkRegion> for Contains {
    ghost use Rattle.perf_core.specs.Jobs.{RegionFits};

    type Output = bool;

    ghost precondition = { λ job work_region words. RegionFits work_region.region words };

    ghost postcondition = { λ job work_region words came log. Unit {0} };

    #[inline(always)]
    fn run<A: Access>(&self, work_region: &WorkRegion, memory: &mut A) -> Result<bool, Stop> {
        has_key(work_region.region, memory, self.key)
    }
}

#[inline(always)]
fn has_key<A: Access>(region: Region, memory: &mut A, key: u32) -> Result<bool, Stop>
    requires going { A.stopped memory.old ≡ None }
    requires region { RegionFits region (A.words memory.old) }
    requires well { Under (A.good memory.old) (A.words memory.old) (A.log memory.old)
        (WellFormed region) }
    ensures well { OnOk result (Under (A.good memory.new) (A.words memory.new) (A.log memory.new)
        (WellFormed region)) }
    ensures goes { OnOk result (A.stopped memory.new ≡ None) }
    ensures stops { IfErr result (λ s. A.stopped memory.new ≡ Some s) }
    ensures good { SameMemories (A.good memory.old) (A.good memory.new) }
    ensures words { A.words memory.new ≡ A.words memory.old }
    ensures keeps { A.keeps memory.old memory.new }
{
    match region {
        Region::List(list) => list.contains(memory, key),
        Region::Hash(hash) => hash.contains(memory, key),
        _ => Ok(false),
    }
}

impl Transaction<WorkRegion> for Insert {
    ghost use Rattle.perf_core.specs.Jobs.{RegionFits};

    type Output = Came;

    ghost precondition = { λ job work_region words. RegionFits work_region.region words };

    ghost postcondition = { λ job work_region words came log. Unit {0} };

    fn run<A: Access>(&self, work_region: &WorkRegion, memory: &mut A) -> Result<Came, Stop> {
        match put_key(work_region.region, memory, self.key)? {
            Inserted::Added => Ok(Came::Inserted),
            Inserted::Present | Inserted::NoRoom => Ok(Came::Done),
        }
    }
}

fn put_key<A: Access>(region: Region, memory: &mut A, key: u32) -> Result<Inserted, Stop>
    requires going { A.stopped memory.old ≡ None }
    requires region { RegionFits region (A.words memory.old) }
    requires well { Under (A.good memory.old) (A.words memory.old) (A.log memory.old)
        (WellFormed region) }
    ensures well { OnOk result (Under (A.good memory.new) (A.words memory.new) (A.log memory.new)
        (WellFormed region)) }
    ensures goes { OnOk result (A.stopped memory.new ≡ None) }
    ensures stops { IfErr result (λ s. A.stopped memory.new ≡ Some s) }
    ensures good { SameMemories (A.good memory.old) (A.good memory.new) }
    ensures words { A.words memory.new ≡ A.words memory.old }
    ensures keeps { A.keeps memory.old memory.new }
{
    match region {
        Region::List(list) => list.insert(memory, key),
        Region::Hash(hash) => hash.insert(memory, key),
        _ => Ok(Inserted::NoRoom),
    }
}

impl Transaction<WorkRegion> for Remove {
    ghost use Rattle.perf_core.specs.Jobs.{RegionFits};

    type Output = Came;

    ghost precondition = { λ job work_region words. RegionFits work_region.region words };

    ghost postcondition = { λ job work_region words came log. Unit {0} };

    fn run<A: Access>(&self, work_region: &WorkRegion, memory: &mut A) -> Result<Came, Stop> {
        if take_key(work_region.region, memory, self.key)? {
            Ok(Came::Removed)
        } else {
            Ok(Came::Done)
        }
    }
}

fn take_key<A: Access>(region: Region, memory: &mut A, key: u32) -> Result<bool, Stop>
    requires going { A.stopped memory.old ≡ None }
    requires region { RegionFits region (A.words memory.old) }
    requires well { Under (A.good memory.old) (A.words memory.old) (A.log memory.old)
        (WellFormed region) }
    ensures well { OnOk result (Under (A.good memory.new) (A.words memory.new) (A.log memory.new)
        (WellFormed region)) }
    ensures goes { OnOk result (A.stopped memory.new ≡ None) }
    ensures stops { IfErr result (λ s. A.stopped memory.new ≡ Some s) }
    ensures good { SameMemories (A.good memory.old) (A.good memory.new) }
    ensures words { A.words memory.new ≡ A.words memory.old }
    ensures keeps { A.keeps memory.old memory.new }
{
    match region {
        Region::List(list) => list.remove(memory, key),
        Region::Hash(hash) => hash.remove(memory, key),
        _ => Ok(false),
    }
}
