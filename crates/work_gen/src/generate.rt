//! Workloads, made from a seed.
ghost use Rattle.std.specs.Prelude.{◌≡◌, ◌≤◌, ◌<◌, ◌+◌, ◌/◌, ℕ, [], ◌∷◌, ◌++◌, IfOk, OnOk};
ghost use Rattle.work_script.specs.declared.workload.Item.TheVariants.{Tx};
ghost use Rattle.work_text.specs.Parsed.{IsParsed};
ghost use Rattle.work_text.specs.declared.parse.Mode.TheVariants.{Run};
ghost use Rattle.work_gen.specs.Draws.{generator_at};
ghost use Rattle.work_gen.specs.Generated.{deposits, drawn_move, draws_before, generated, header_for, items_for, operation, switch_after, switched};

use crate::draws::{draw, seeded};
use data_regions::region::Regions;
use rand_pcg::Pcg32;
use smallvec::SmallVec;
use std::alloc::{AllocError, Global};
use stm_model::alg::Alg;
use stm_model::memory::Memory;
use work_profile::choosing::next_in_cycle;
use work_profile::policy::Policy;
use work_script::lists::Script;
use work_script::op::{COUNTER, LIST, Op};
use work_script::workload::{Gos, Header, Item, Items, Version, Workload};

/// The most transactions after the opening one.
pub const MOST_TRANSACTIONS: u32 = 50_000;
/// The accounts are the words 0 to 63.
pub const ACCOUNTS: u32 = 64;
/// What the opening transaction writes to each account.
pub const DEPOSIT: u64 = 1_000;
/// A move takes less than this.
pub const MOST_MOVED: u32 = 100;
/// The stripes of the counter.
pub const STRIPES: usize = 4;
/// The keys that go into the list are less than this.
pub const KEYS: usize = 24;
/// After so many transactions caller 0 changes the algorithm.
pub const SWITCH_EVERY: usize = 16;

/// The workload of so many transactions, 1 to [`MOST_TRANSACTIONS`], of 1 to 32 callers, drawn from the seed: one
/// that `run` takes. Memory may be refused.
///
/// Caller 0 opens with [`DEPOSIT`] to each account. Then the callers take turns: of four transactions two
/// move between accounts, one counts and one adds a key to the list. After each sixteenth caller 0 switches
/// to the next algorithm in the cycle.
pub fn generate(
    alloc: Global,
    transactions: u32,
    callers: u32,
    seed: u64,
) -> Result<Workload, Memory>
    requires transactions { transactions ≤ MOST_TRANSACTIONS }
    requires callers { (1 ≤ callers) × (callers ≤ 32) }
    ensures generated { IfOk result (λ w. w ≡ generated transactions callers seed) }
    ensures is_parsed { IfOk result (λ w. IsParsed Run w) }
{
    let items = make_items(alloc, transactions, callers, seed)?;
    Ok(Workload {
        header: header_for(alloc, callers as usize)?,
        items: Items::new(items),
        schedule: Gos::new(Vec::new(alloc)),
    })
}

/// The opening transaction, the others, and the switches between them.
fn make_items(
    alloc: Global,
    transactions: u32,
    callers: u32,
    seed: u64,
) -> Result<Vec<Item>, AllocError>
    requires transactions { transactions ≤ MOST_TRANSACTIONS }
    requires callers { 1 ≤ callers }
    ensures { IfOk result (λ v. v.items ≡ items_for transactions callers seed) }
{
    let mut items = Vec::new(alloc);
    items.push(opening(alloc)?)?;
    let mut draws = seeded(seed);
    let mut alg = Alg::OrecLazy;
    for i in 0..transactions as usize {
        let op = operation(&mut draws, i);
        items.push(transaction(alloc, i % callers as usize, op)?)?;
        put_switch(&mut items, &mut alg, i)?;
    }
    Ok(items)
}

/// After each sixteenth transaction, a switch to the algorithm that follows `alg` in the cycle.
fn put_switch(items: &mut Vec<Item>, alg: &mut Alg, i: usize) -> Result<(), AllocError>
    requires small { i < MOST_TRANSACTIONS }
    requires last { alg.old ≡ switched (i / SWITCH_EVERY) }
    ensures items { OnOk result (items.new.items ≡ items.old.items ++ switch_after i) }
    ensures alg { OnOk result (alg.new ≡ switched ((i + 1) / SWITCH_EVERY)) }
{
    if i % SWITCH_EVERY == 15 {
        *alg = next_in_cycle(*alg);
        items.push(Item::Switch {
            caller: 0,
            alg: *alg,
        })?;
    }
    Ok(())
}

fn header_for(alloc: Global, callers: usize) -> Result<Header, AllocError>
    ensures { IfOk result (λ h. h ≡ header_for callers) }
{
    Ok(Header {
        version: Version::One,
        words: 1_024,
        records: 64,
        ring: 16,
        callers,
        reads: 256,
        writes: 256,
        clock: 0,
        alg: Alg::OrecLazy,
        regions: Regions::version_one(alloc)?,
        policy: Policy::Fixed,
    })
}

/// The transaction that opens all accounts.
fn opening(alloc: Global) -> Result<Item, AllocError>
    ensures { IfOk result (λ item. item ≡ Tx 0 (deposits ACCOUNTS)) }
{
    let mut ops = SmallVec::new(alloc);
    for account in 0..ACCOUNTS as usize {
        ops.push(Op::Write(account, DEPOSIT))?;
    }
    Ok(Item::Tx {
        caller: 0,
        script: Script::new(ops),
    })
}

/// A transaction of one operation.
fn transaction(alloc: Global, caller: usize, op: Op) -> Result<Item, AllocError>
    ensures { IfOk result (λ item. item ≡ Tx caller (op ∷ [])) }
{
    let mut ops = SmallVec::new(alloc);
    ops.push(op)?;
    Ok(Item::Tx {
        caller,
        script: Script::new(ops),
    })
}

/// The operation of transaction `i`.
fn operation(draws: &mut Pcg32, i: usize) -> Op
    requires { i < MOST_TRANSACTIONS }
    ensures { (seed : ℕ) → draws.old ≡ generator_at seed (draws_before i)
        → (result ≡ operation seed i) × (draws.new ≡ generator_at seed (draws_before (i + 1))) }
{
    match i % 4 {
        2 => Op::Count(COUNTER, i / 4 % STRIPES, 1),
        3 => Op::ListInsert(LIST, (i / 4 % KEYS) as u32),
        _ => drawn_move(draws),
    }
}

/// A move by the next three draws.
fn drawn_move(draws: &mut Pcg32) -> Op
    ensures { (seed k : ℕ) → draws.old ≡ generator_at seed k
        → (result ≡ drawn_move seed k) × (draws.new ≡ generator_at seed (k + 3)) }
{
    let from = draw(draws, ACCOUNTS) as usize;
    let to = draw(draws, ACCOUNTS) as usize;
    let amount = u64::from(draw(draws, MOST_MOVED));
    Op::Move(from, to, amount)
}
