//! The items of a workload, parted by caller.
ghost use Rattle.std.specs.Prelude.{◌≡◌, ◌<◌, ◌∷◌, [], ◌++◌, All, length, slice_index_or, slice_set, IfOk, OnOk};
ghost use Rattle.work_trace.specs.Places.{caller_in};
ghost use Rattle.work_driver.specs.Partings.{parted};

use std::alloc::{AllocError, Global};
use std::marker::Model;
use stm_model::memory::Memory;
use work_script::workload::Item;

/// What one caller is to do, in the order of the text.
#[derive(Drop, Debug)]
pub struct CallerItems {
    items: Vec<Item>,
}

impl Model for CallerItems {
    ghost use Rattle.std.specs.Prelude.{List};
    ghost use Rattle.work_script.specs.declared.workload.Item.{Item};

    ghost Value = { List Item };

    ghost view = { λ s. s.items.items };
}

impl CallerItems {
    fn new(alloc: Global) -> CallerItems
        ensures { result ≡ [] }
    {
        CallerItems {
            items: Vec::new(alloc),
        }
    }

    fn push(&mut self, item: Item) -> Result<(), AllocError>
        ensures { OnOk result (self.new ≡ self.old ++ item ∷ []) }
    {
        self.items.push(item)?;
        Ok(())
    }

    pub fn as_slice(&self) -> &[Item]
        ensures { result.now ≡ self.now }
    {
        self.items.as_slice()
    }
}

/// What this caller is to do.
pub fn items_at(parts: &[CallerItems], caller: usize) -> &[Item]
    requires { caller < length parts.now }
    ensures { result.now ≡ slice_index_or parts.now caller [] }
{
    parts[caller].as_slice()
}

/// What each of `callers` callers is to do. Memory may be refused.
pub fn part(alloc: Global, callers: usize, items: Vec<Item>) -> Result<Vec<CallerItems>, Memory>
    requires { All (λ i. caller_in i < callers) items.items }
    ensures { IfOk result (λ parts. parts.items ≡ parted callers items.items) }
{
    let mut parts = empty_parts(alloc, callers)?;
    for item in items {
        give(parts.as_mut_slice(), item)?;
    }
    Ok(parts)
}

/// Nothing to do for each caller.
fn empty_parts(alloc: Global, callers: usize) -> Result<Vec<CallerItems>, Memory>
    ensures { IfOk result (λ parts. parts.items ≡ parted callers []) }
{
    let mut parts = Vec::with_capacity(alloc, callers)?;
    for _ in 0..callers {
        parts.push_reserved(CallerItems::new(alloc));
    }
    Ok(parts)
}

/// Gives an item to its caller.
fn give(parts: &mut [CallerItems], item: Item) -> Result<(), AllocError>
    requires { caller_in item < length parts.old }
    ensures { OnOk result (parts.new
        ≡ slice_set parts.old (caller_in item)
        (slice_index_or parts.old (caller_in item) [] ++ item ∷ [])) }
{
    let caller = caller_in(&item);
    parts[caller].push(item)
}

/// The caller of an item.
fn caller_in(item: &Item) -> usize
    ensures { result ≡ caller_in item.now }
{
    match item {
        Item::Tx { caller, script: _ } => *caller,
        Item::Switch { caller, alg: _ } => *caller,
        Item::Reserve {
            caller,
            reads: _,
            writes: _,
        } => *caller,
    }
}
