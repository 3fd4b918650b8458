//! The lines that stand in place of a report.
ghost use Rattle.std.specs.Prelude.{◌≡◌, IfOk, codes};
ghost use Rattle.work_bench.specs.Messages.{help_text, usage_line, read_fault_line, refused_line, yes_line, no_line, clock_full_line};

use std::alloc::Global;
use stm_model::memory::Memory;
use work_cli::help::Topic;
use work_faults::fault::Fault;

/// How the program is called.
pub fn usage(alloc: Global) -> Result<Vec<u8>, Memory>
    ensures { IfOk result (λ t. t.items ≡ usage_line) }
{
    let line = b"usage: stm_bench run [--policy P] / step / gen N T SEED / check\n".to_vec(alloc)?;
    Ok(line)
}

/// The help that is asked for.
pub fn help(alloc: Global, topic: Topic) -> Result<Vec<u8>, Memory>
    ensures { IfOk result (λ t. t.items ≡ help_text topic) }
{
    let text = help_of(topic).as_bytes().to_vec(alloc)?;
    Ok(text)
}

fn help_of(topic: Topic) -> &'static str
    ensures { result.now ≡ help_text topic }
{
    match topic {
        Topic::All =>
            "usage: stm_bench COMMAND\n\n  run [--policy P] [FILE]  runs a workload with a thread for each caller, and writes its report\n  step [FILE]              runs it on one thread, in the turns of its schedule; writes the trace and the report\n  gen N T SEED             runs N transactions of T callers drawn from SEED, and writes the summary\n  check [FILE [REPORT]]    says whether a report replays its workload\n  COMMAND --help           says more of a command\n  --version                writes the version\n\nStandard input is read where no FILE is named. docs/FORMATS.md has the formats, exit statuses and fault codes.\nAn example: stm_bench run examples/three-transactions.stm\n",
        Topic::Run =>
            "usage: stm_bench run [--policy P] [FILE]\n\nRuns the workload of FILE, or of standard input, with a thread for each caller, and writes its report.\nP is the policy of caller 0: fixed, expert, round:N with N from 1 to 65536, or state:N with N from 1 to 16.\n",
        Topic::Step =>
            "usage: stm_bench step [FILE]\n\nRuns the workload of FILE, or of standard input, on one thread, in the turns of its schedule, and writes the trace and\nthen the report.\n",
        Topic::Gen =>
            "usage: stm_bench gen N T SEED\n\nRuns N transactions (1 to 50000) of T callers (1 to 32) drawn from SEED (below 2^64), and writes the summary.\n",
        Topic::Check =>
            "usage: stm_bench check [FILE [REPORT]]\n\nSays whether a report replays its workload: yes, no and the line, or refused and the line. With FILE and REPORT the\nreport, or what step wrote, is a file of its own; with FILE alone the answer is whether it is a workload. Else standard\ninput has a workload and then a report.\n",
        Topic::Version => "stm_bench 1.0.0\n",
    }
}

/// The source failed.
pub fn read_fault(alloc: Global) -> Result<Vec<u8>, Memory>
    ensures { IfOk result (λ t. t.items ≡ read_fault_line) }
{
    let line = b"read fault\n".to_vec(alloc)?;
    Ok(line)
}

/// The text isn't in its form.
pub fn refused(alloc: Global, line: usize, fault: Fault) -> Result<Vec<u8>, Memory>
    ensures { IfOk result (λ t. t.items ≡ refused_line line fault) }
{
    let number = fault.number();
    let name = fault.name();
    let text = format!(in alloc; "refused {line} {number} {name}\n")?;
    Ok(text.into_bytes())
}

/// The report replays the workload.
pub fn yes(alloc: Global) -> Result<Vec<u8>, Memory>
    ensures { IfOk result (λ t. t.items ≡ yes_line) }
{
    let line = b"yes\n".to_vec(alloc)?;
    Ok(line)
}

/// The report doesn't replay the workload.
pub fn no(alloc: Global, line: usize) -> Result<Vec<u8>, Memory>
    ensures { IfOk result (λ t. t.items ≡ no_line line) }
{
    let text = format!(in alloc; "no {line}\n")?;
    Ok(text.into_bytes())
}

/// The clock stands at its limit.
pub fn clock_full(alloc: Global, clock: u64) -> Result<Vec<u8>, Memory>
    ensures { IfOk result (λ t. t.items ≡ clock_full_line clock) }
{
    let text = format!(in alloc; "clock full {clock}\n")?;
    Ok(text.into_bytes())
}
