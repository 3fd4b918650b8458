//! What a descriptor keeps of its attempt beside its seat.
ghost use Rattle.std.specs.Prelude.{◌≡◌, ◌≤◌, IfOk};
ghost use Rattle.stm_rule.specs.Attempts.{idle_local, begun, ended};

use std::alloc::Global;
use stm_logs::filter::Filter;
use stm_logs::read_log::ReadLog;
use stm_logs::undo_log::UndoLog;
use stm_logs::write_log::WriteLog;
use stm_model::alg::Alg;
use stm_model::memory::Memory;

/// The plain fields of a descriptor. What stands of its view by them is said in `specs/Attempts.antt`.
#[derive(Drop)]
pub struct Local {
    /// Whether it has closed the gate; if so, the callers below `next` were seen idle since.
    pub holds: bool,
    /// Whether an attempt runs.
    pub running: bool,
    /// Whether it is in the middle of its commit, which answered Again.
    pub committing: bool,
    /// Whether the attempt wrote.
    pub wrote: bool,
    /// Whether the attempt was made irrevocable on demand, by a promotion or by Serial's grant.
    pub granted: bool,
    /// Under which algorithm the attempt runs, and its start.
    pub algorithm: Alg,
    pub start: u64,
    /// How many marks stand.
    pub depth: usize,
    /// The fence that the gate had when it let the attempt in or was closed, 0 for none.
    pub fence: u64,
    pub next: usize,
    /// What stood in the heap before the attempt's first write of each address, while it can be taken back. An address
    /// whose write is rolled back to a mark keeps its item, and under OrecEager its record.
    pub undo: UndoLog,
    /// What the attempt read under the record algorithms, of words that it had not yet written.
    pub reads: ReadLog,
    /// What it wrote that is to be stored at its commit; under OrecEager, what it stored in place.
    pub writes: WriteLog,
    /// The records that it holds, each with the version that it replaced.
    pub locks: UndoLog,
    /// RingSW: the addresses that it loaded, and those that it wrote.
    pub loaded: Filter,
    pub stored: Filter,
}

impl Local {
    /// No attempt runs, and the gate isn't closed. It takes the room of a read log, and of the logs of writes and of
    /// records held, which are as long as each other, each 1 to 1,048,576, and of `marks` marks.
    pub fn idle(alloc: Global, reads: usize, writes: usize, marks: usize) -> Result<Local, Memory>
        requires low { (1 ≤ reads) × (1 ≤ writes) }
        requires high { (reads ≤ 1048576) × (writes ≤ 1048576) }
        ensures { IfOk result (λ l. l ≡ idle_local reads writes marks) }
    {
        Ok(Local {
            holds: false,
            running: false,
            committing: false,
            wrote: false,
            granted: false,
            algorithm: Alg::Cgl,
            start: 0,
            depth: 0,
            fence: 0,
            next: 0,
            undo: UndoLog::new(alloc, writes)?,
            reads: ReadLog::new(alloc, reads)?,
            writes: WriteLog::new(alloc, writes, marks)?,
            locks: UndoLog::new(alloc, writes)?,
            loaded: Filter::new(),
            stored: Filter::new(),
        })
    }

    /// An attempt of this algorithm runs, from this start on, with empty logs, and under RingSW with empty filters.
    #[inline(always)]
    pub fn begin(&mut self, algorithm: Alg, start: u64)
        ensures { self.new ≡ begun algorithm start self.old }
    {
        self.running = true;
        self.committing = false;
        self.wrote = false;
        self.granted = false;
        self.algorithm = algorithm;
        self.start = start;
        self.depth = 0;
        self.undo.renew();
        self.reads.renew();
        self.writes.renew();
        self.locks.renew();
        if let Alg::RingSw = algorithm {
            self.loaded = Filter::new();
            self.stored = Filter::new();
        }
    }

    /// No attempt runs any more, and the gate isn't closed.
    pub fn end(&mut self)
        ensures { self.new ≡ ended self.old }
    {
        self.running = false;
        self.holds = false;
    }
}
