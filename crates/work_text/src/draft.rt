//! A workload as far as it is read.
ghost use Rattle.std.specs.Prelude.{◌≡◌, IfOk, OnOk};
ghost use Rattle.work_text.specs.Drafts.{after, opening, with_field, regions_where};
ghost use Rattle.work_text.specs.declared.draft.Step.TheVariants.{End};
ghost use Rattle.work_text.specs.Grammar.{one_item, begun, changed, lengthened, added, emitted, has_structure, structured, next_region, planned};

use crate::code;
use data_regions::region::{Region, Regions};
use smallvec::SmallVec;
use std::alloc::{AllocError, Global};
use std::marker::Model;
use stm_model::alg::Alg;
use work_profile::policy::Policy;
use work_script::lists::Script;
use work_script::op::Op;
use work_script::workload::{
    Go, Gos, Header, Item, Items, MAX_ITEMS, MAX_OPS, MAX_TURNS, Version, Workload,
};

/// The line that comes next.
#[derive(Clone, Copy, Drop)]
pub enum NextLine {
    Version,
    Words,
    Callers,
    Records,
    Ring,
    Reads,
    Writes,
    Clock,
    Algorithm,
    /// `structs`, the last line of the header in version 1.
    Structures,
    /// `regions`, which says how many regions there are.
    Regions,
    /// A region.
    Region,
    /// `policy`, the last line of the header in version 2.
    Policy,
    /// `tx`, `switch`, `reserve`, `schedule` or `done`.
    Items,
    /// An operation or `end`.
    Ops,
    /// `go` or `done`.
    Turns,
}

/// What a line of the header gives.
#[derive(Clone, Copy, Drop)]
pub enum Field {
    Version(Version),
    Words(usize),
    Callers(usize),
    Records(usize),
    Ring(usize),
    Reads(usize),
    Writes(usize),
    Clock(u64),
    Algorithm(Alg),
    /// Whether structures are on.
    Structures(bool),
    /// One more region.
    Region(Region),
    Policy(Policy),
}

/// What a line does.
#[derive(Clone, Copy, Drop)]
pub enum Step {
    /// A line of the header: the line that comes next, and what it gives.
    Head(NextLine, Field),
    /// `regions`: the line that comes next, and how many regions there are.
    Count(NextLine, usize),
    /// `tx` of this caller.
    Begin(usize),
    /// `switch` of this caller to this algorithm.
    Change(usize, Alg),
    /// `reserve` of this caller: the lengths of its logs.
    Lengthen(usize, usize, usize),
    Add(Op),
    End,
    Schedule,
    /// `go`, and the turns of the schedule in all then.
    Turn(Go, u32),
    Done,
}

/// A workload as far as it is read, with the transaction that is open.
#[derive(Drop)]
pub struct Draft {
    place: NextLine,
    header: Header,
    // how many regions the header has
    count: usize,
    items: Vec<Item>,
    caller: usize,
    // room that the transactions use in turn, so that each takes the memory of its own operations alone
    ops: Vec<Op>,
    // whether an irrev is among them
    asked: bool,
    schedule: Vec<Go>,
    turns: u32,
}

impl Model for Draft {
    ghost use Rattle.std.specs.Prelude.{◌≡◌};
    ghost use Rattle.work_script.specs.Scripts.{has_irrev};
    ghost use Rattle.work_text.specs.Drafts.{Writing};

    ghost Value = { Writing };

    ghost view = { λ d. record { place = d.place; header = d.header; count = d.count; items = d.items.items; caller = d.caller; ops = d.ops.items; schedule = d.schedule.items; turns = d.turns } };

    ghost invariant = { λ d. d.asked ≡ has_irrev d.ops.items };
}

/// The line of the header that comes where there are `regions` of `count`.
pub fn next_region(count: usize, regions: usize) -> NextLine
    ensures { result ≡ next_region count regions }
{
    if count <= regions {
        NextLine::Policy
    } else {
        NextLine::Region
    }
}

/// Whether the region that the operation works on is one of its structure's.
fn has_structure(regions: &[Region], op: Op) -> bool
    ensures { result ≡ has_structure regions.now op }
{
    match op.structure() {
        None => true,
        Some((structure, number)) => match regions.get(number) {
            None => false,
            Some(region) => structure.is(region.structure()),
        },
    }
}

/// Gives the header what a line says. Memory may be refused.
fn give(header: &mut Header, alloc: Global, field: Field) -> Result<(), AllocError>
    ensures { OnOk result (header.new ≡ with_field field header.old) }
{
    match field {
        Field::Version(version) => header.version = version,
        Field::Words(words) => header.words = words,
        Field::Callers(callers) => header.callers = callers,
        Field::Records(records) => header.records = records,
        Field::Ring(ring) => header.ring = ring,
        Field::Reads(reads) => header.reads = reads,
        Field::Writes(writes) => header.writes = writes,
        Field::Clock(clock) => header.clock = clock,
        Field::Algorithm(alg) => header.alg = alg,
        Field::Structures(on) => header.regions = regions_where(alloc, on)?,
        Field::Region(region) => header.regions.push(region)?,
        Field::Policy(policy) => header.policy = policy,
    }
    Ok(())
}

/// The four regions of version 1 where structures are on, and none where they are off. Memory may be refused.
fn regions_where(alloc: Global, on: bool) -> Result<Regions, AllocError>
    ensures { IfOk result (λ r. r ≡ regions_where on) }
{
    if on {
        Regions::version_one(alloc)
    } else {
        Ok(Regions::none(alloc))
    }
}

impl Draft {
    /// Before the first line.
    pub fn new(alloc: Global) -> Draft
        ensures { result ≡ opening }
    {
        Draft {
            place: NextLine::Version,
            header: Header {
                version: Version::One,
                words: 1,
                records: 1,
                ring: 2,
                callers: 1,
                reads: 1,
                writes: 1,
                clock: 0,
                alg: Alg::Cgl,
                regions: Regions::none(alloc),
                policy: Policy::Fixed,
            },
            count: 0,
            items: Vec::new(alloc),
            caller: 0,
            ops: Vec::new(alloc),
            asked: false,
            schedule: Vec::new(alloc),
            turns: 0,
        }
    }

    pub fn place(&self) -> NextLine
        ensures { result ≡ self.now.place }
    {
        self.place
    }

    pub fn header(&self) -> &Header
        ensures { result.now ≡ self.now.header }
    {
        &self.header
    }

    /// The line of the header that comes once there are so many regions.
    pub fn next_region(&self, regions: usize) -> NextLine
        ensures { result ≡ next_region self.now.count regions }
    {
        next_region(self.count, regions)
    }

    /// One more item, where it isn't one too many.
    fn one_item(&self, step: Step) -> Result<Step, u32>
        ensures { result ≡ one_item self.now step }
    {
        if self.items.len() < MAX_ITEMS {
            Ok(step)
        } else {
            Err(code::MANY)
        }
    }

    /// A transaction, where it isn't one item too many.
    pub fn begun(&self, caller: usize) -> Result<Step, u32>
        ensures { result ≡ begun self.now caller }
    {
        self.one_item(Step::Begin(caller))
    }

    /// A switch, where it isn't one item too many.
    pub fn changed(&self, caller: usize, alg: Alg) -> Result<Step, u32>
        ensures { result ≡ changed self.now caller alg }
    {
        self.one_item(Step::Change(caller, alg))
    }

    /// Longer logs, where it isn't one item too many.
    pub fn lengthened(&self, caller: usize, reads: usize, writes: usize) -> Result<Step, u32>
        ensures { result ≡ lengthened self.now caller reads writes }
    {
        self.one_item(Step::Lengthen(caller, reads, writes))
    }

    /// One more operation, where it isn't one too many.
    pub fn added(&self, op: Op) -> Result<Step, u32>
        ensures { result ≡ added self.now op }
    {
        if self.ops.len() < MAX_OPS {
            Ok(Step::Add(op))
        } else {
            Err(code::MANY)
        }
    }

    /// One more `emit`, where an `irrev` stands before it and it isn't one operation too many.
    pub fn emitted(&self, a: usize) -> Result<Step, u32>
        ensures { result ≡ emitted self.now a }
    {
        if self.asked {
            self.added(Op::Emit(a))
        } else {
            Err(code::ORDER)
        }
    }

    /// One more operation on a structure, where its region is of that kind and it isn't one operation too many.
    pub fn structured(&self, op: Op) -> Result<Step, u32>
        ensures { result ≡ structured self.now op }
    {
        if has_structure(self.header.regions.as_slice(), op) {
            self.added(op)
        } else {
            Err(code::REGION)
        }
    }

    /// So many turns more, where they aren't too many in all.
    pub fn planned(&self, go: Go) -> Result<Step, u32>
        ensures { result ≡ planned self.now go }
    {
        let all = u64::from(self.turns) + u64::from(go.turns);
        if all <= MAX_TURNS {
            Ok(Step::Turn(go, all as u32))
        } else {
            Err(code::MANY)
        }
    }

    /// Goes on past a line. Memory may be refused.
    pub fn take(&mut self, alloc: Global, step: Step) -> Result<(), AllocError>
        ensures { OnOk result (self.new ≡ after step self.old) }
    {
        match step {
            Step::Head(place, field) => {
                give(&mut self.header, alloc, field)?;
                self.place = place;
                Ok(())
            }
            Step::Count(place, count) => {
                self.place = place;
                self.count = count;
                Ok(())
            }
            Step::Begin(caller) => {
                self.place = NextLine::Ops;
                self.caller = caller;
                Ok(())
            }
            Step::Change(caller, alg) => {
                self.items.push(Item::Switch { caller, alg })?;
                Ok(())
            }
            Step::Lengthen(caller, reads, writes) => {
                self.items.push(Item::Reserve {
                    caller,
                    reads,
                    writes,
                })?;
                Ok(())
            }
            Step::Add(op) => {
                self.ops.push(op)?;
                self.asked |= op.is_irrev();
                Ok(())
            }
            Step::End => self.close(alloc),
            Step::Schedule => {
                self.place = NextLine::Turns;
                Ok(())
            }
            Step::Turn(go, all) => {
                self.schedule.push(go)?;
                self.turns = all;
                Ok(())
            }
            Step::Done => Ok(()),
        }
    }

    /// The open transaction becomes an item. Memory may be refused.
    fn close(&mut self, alloc: Global) -> Result<(), AllocError>
        ensures { OnOk result (self.new ≡ after End self.old) }
    {
        let script = Script::new(SmallVec::from_slice(alloc, self.ops.as_slice())?);
        self.ops.clear();
        self.asked = false;
        self.items.push(Item::Tx {
            caller: self.caller,
            script,
        })?;
        self.place = NextLine::Items;
        Ok(())
    }

    /// The workload that is read.
    pub fn into_workload(self) -> Workload
        ensures { result
            ≡ record { header = self.header; items = self.items; schedule = self.schedule } }
    {
        let Draft {
            place: _,
            header,
            count: _,
            items,
            caller: _,
            ops: _,
            asked: _,
            schedule,
            turns: _,
        } = self;
        Workload {
            header,
            items: Items::new(items),
            schedule: Gos::new(schedule),
        }
    }
}
