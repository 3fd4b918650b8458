//! Reports, read slowly line by line and replayed on a few plain words. It shares nothing with `check` but what that
//! answers, so that the two can be compared.
use std::alloc::Global;
use std::str;
use std::test::Fail;
use work_check::checking::Finding;

/// A transaction of a workload: its caller, and the lines of its operations.
#[derive(Drop)]
pub(crate) struct Script<'a> {
    caller: u64,
    operations: Vec<&'a str>,
}

/// A row, as its line has it.
#[derive(Drop)]
struct Row {
    kind: u8,
    place: u64,
    caller: u64,
    seq: u64,
    replies: Vec<u64>,
    emits: Vec<u64>,
}

/// Which line comes next.
#[derive(Clone, Copy, Drop)]
enum Next {
    Title,
    Row,
    Word,
    Nothing,
}

/// What a report's lines so far say, and which line comes next.
#[derive(Drop)]
struct Reader {
    next: Next,
    rows: Vec<Row>,
    words: Vec<(u64, u64)>,
}

/// Eight words, and what a script did.
#[derive(Drop)]
struct Run {
    memory: [u64; 8],
    replies: Vec<u64>,
    emits: Vec<u64>,
    wrote: bool,
    asked: bool,
    cancelled: bool,
}

fn has_bad_byte(line: &[u8]) -> bool {
    line.iter().any(|byte| *byte < 32 || *byte > 126)
}

/// A number of the form.
fn number(word: &str) -> Option<u64> {
    let is_led = word.len() > 1 && word.starts_with('0');
    if is_led || !word.bytes().all(|byte| byte.is_ascii_digit()) {
        return None;
    }
    match word.parse::<u64>() {
        Ok(n) => Some(n),
        Err(_) => None,
    }
}

/// The transactions of a workload without a fault, in its order.
pub(crate) fn scripts<'a>(alloc: Global, workload: &'a str) -> Result<Vec<Script<'a>>, Fail> {
    let mut scripts: Vec<Script<'a>> = Vec::new(alloc);
    for line in workload.lines() {
        if let Some(caller) = line.strip_prefix("tx ") {
            let caller = number(caller).unwrap_or(0);
            let operations = Vec::new(alloc);
            scripts.push(Script { caller, operations })?;
        } else if let Some(script) = scripts.last_mut() {
            script.operations.push(line)?;
        }
    }
    Ok(scripts)
}

/// The transaction with this number, from 0, of a caller.
fn find<'s, 'a>(scripts: &'s [Script<'a>], caller: u64, seq: u64) -> Option<&'s Script<'a>> {
    let mut left = seq;
    for script in scripts {
        if script.caller == caller {
            if left == 0 {
                return Some(script);
            }
            left -= 1;
        }
    }
    None
}

/// The numbers of a text, each with a space before it.
fn numbers(alloc: Global, text: &str) -> Result<Option<Vec<u64>>, Fail> {
    let mut found = Vec::new(alloc);
    let mut is_first = true;
    for word in text.split(' ') {
        if is_first {
            if !word.is_empty() {
                return Ok(None);
            }
            is_first = false;
        } else {
            match number(word) {
                Some(n) => found.push(n)?,
                None => return Ok(None),
            }
        }
    }
    Ok(Some(found))
}

/// A row, where the line is in its form.
fn read_row(alloc: Global, line: &str) -> Result<Option<Row>, Fail> {
    let (head, told) = line.split_once(" :").unwrap_or(("", "none"));
    let (replies, emits) = told.split_once(" !").unwrap_or((told, ""));
    if emits.is_empty() && told.contains(" !") {
        return Ok(None);
    }
    let kind = head.as_bytes().first().copied().unwrap_or(0);
    let begin = numbers(alloc, head.get(1..).unwrap_or("none"))?;
    let (Some(begin), Some(replies), Some(emits)) = (
        begin,
        numbers(alloc, replies)?,
        numbers(alloc, emits)?,
    ) else {
        return Ok(None);
    };
    Ok(match (kind, begin.as_slice()) {
        (b'W' | b'R' | b'C', &[place, caller, seq]) => Some(Row {
            kind,
            place,
            caller,
            seq,
            replies,
            emits,
        }),
        _ => None,
    })
}

impl Reader {
    /// Whether the line may stand here.
    fn takes(&mut self, alloc: Global, line: &str) -> Result<bool, Fail> {
        match self.next {
            Next::Title => {
                self.next = Next::Row;
                return Ok(line == "report 1");
            }
            Next::Nothing => return Ok(false),
            _ => {}
        }
        if line == "end" {
            self.next = Next::Nothing;
            return Ok(true);
        }
        match line.strip_prefix("mem") {
            Some(pair) => self.takes_word(alloc, pair),
            None => self.takes_row(alloc, line),
        }
    }

    fn takes_row(&mut self, alloc: Global, line: &str) -> Result<bool, Fail> {
        match (self.next, read_row(alloc, line)?) {
            (Next::Row, Some(row)) => {
                self.rows.push(row)?;
                Ok(true)
            }
            _ => Ok(false),
        }
    }

    fn takes_word(&mut self, alloc: Global, pair: &str) -> Result<bool, Fail> {
        self.next = Next::Word;
        let Some(pair) = numbers(alloc, pair)? else {
            return Ok(false);
        };
        let &[address, value] = pair.as_slice() else {
            return Ok(false);
        };
        let ascends = match self.words.last() {
            Some((last, _)) => *last < address,
            None => true,
        };
        self.words.push((address, value))?;
        Ok(ascends && value > 0)
    }
}

/// What a report comes to after a workload with these transactions: its lines count from 1.
pub(crate) fn judge(alloc: Global, scripts: &[Script], report: &[u8]) -> Result<Finding, Fail> {
    let mut reader = Reader {
        next: Next::Title,
        rows: Vec::new(alloc),
        words: Vec::new(alloc),
    };
    let mut number = 1usize;
    let mut line = Vec::new(alloc);
    for byte in report {
        if *byte != b'\n' {
            line.push(*byte)?;
            continue;
        }
        if has_bad_byte(line.as_slice())
            || !reader.takes(alloc, str::from_utf8(line.as_slice())?)?
        {
            return Ok(Finding::Faulty {
                line: number,
                code: 12,
            });
        }
        number = number.saturating_add(1);
        line.clear();
    }
    if line.is_empty() && matches!(reader.next, Next::Nothing) {
        return replay(alloc, scripts, &reader);
    }
    Ok(Finding::Faulty {
        line: number,
        code: 3,
    })
}

/// Replays the rows of a report.
fn replay(alloc: Global, scripts: &[Script], report: &Reader) -> Result<Finding, Fail> {
    let mut memory = [0u64; 8];
    let mut seqs = [0u64; 32];
    let mut above: Option<&Row> = None;
    let mut line = 2usize;
    for row in report.rows.as_slice() {
        let ran = match seqs.get_mut(row.caller as usize) {
            Some(seq) if *seq == row.seq && follows(row, above) => {
                *seq = seq.saturating_add(1);
                run_row(alloc, scripts, memory, row)?
            }
            _ => None,
        };
        let Some(left) = ran else {
            return Ok(Finding::No { line });
        };
        memory = left;
        above = Some(row);
        line = line.saturating_add(1);
    }
    for (caller, seq) in seqs.iter().enumerate() {
        if find(scripts, caller as u64, *seq).is_some() {
            return Ok(Finding::No { line });
        }
    }
    Ok(compare_words(&memory, report.words.as_slice(), line))
}

/// Compares the words that are told, from this line on, with those of the memory.
fn compare_words(memory: &[u64; 8], told: &[(u64, u64)], first: usize) -> Finding {
    let mut line = first;
    let mut told = told.iter();
    for (address, word) in memory.iter().enumerate() {
        if *word != 0 {
            if told.next() != Some(&(address as u64, *word)) {
                return Finding::No { line };
            }
            line = line.saturating_add(1);
        }
    }
    if told.next().is_some() {
        Finding::No { line }
    } else {
        Finding::Yes
    }
}

/// Whether a row may stand after another in a report: by place, W rows first and one of a place, then by caller, then
/// by number.
fn follows(row: &Row, above: Option<&Row>) -> bool {
    let Some(last) = above else {
        return true;
    };
    let key = (row.place, row.kind != b'W', row.caller, row.seq);
    let (place, is_other) = (last.place, last.kind != b'W');
    let both_write = row.kind == b'W' && last.kind == b'W';
    key >= (place, is_other, last.caller, last.seq) && !(both_write && row.place == place)
}

/// The memory after a row, where it says what its script does.
fn run_row(
    alloc: Global,
    scripts: &[Script],
    memory: [u64; 8],
    row: &Row,
) -> Result<Option<[u64; 8]>, Fail> {
    let Some(script) = find(scripts, row.caller, row.seq) else {
        return Ok(None);
    };
    let mut ran = Run {
        memory,
        replies: Vec::new(alloc),
        emits: Vec::new(alloc),
        wrote: false,
        asked: false,
        cancelled: false,
    };
    for operation in script.operations.as_slice() {
        if *operation == "end" || ran.cancelled {
            break;
        }
        ran.does(row.kind, operation)?;
    }
    let ends = match row.kind {
        b'C' => ran.cancelled,
        kind => ran.wrote == (kind == b'W'),
    };
    if !ends || row.replies != ran.replies || row.emits != ran.emits {
        return Ok(None);
    }
    Ok(Some(if ran.cancelled { memory } else { ran.memory }))
}

impl Run {
    fn does(&mut self, kind: u8, operation: &str) -> Result<(), Fail> {
        let mut words = operation.split(' ');
        let name = words.next().unwrap_or("");
        let a = number(words.next().unwrap_or("")).unwrap_or(0) as usize;
        let b = number(words.next().unwrap_or("")).unwrap_or(0);
        let c = number(words.next().unwrap_or("")).unwrap_or(0);
        let here = self.memory.get(a).copied().unwrap_or(0);
        let reply = match name {
            "write" => self.stores(a, b),
            "add" => self.stores(a, here.wrapping_add(b)),
            "move" if here < c => 0,
            "move" => {
                self.stores(a, here.wrapping_sub(c));
                let there = self.memory.get(b as usize).copied().unwrap_or(0);
                self.stores(b as usize, there.wrapping_add(c));
                1
            }
            "irrev" => {
                self.asked = true;
                1
            }
            "cancel" if kind == b'C' && !self.asked => {
                self.cancelled = true;
                1
            }
            "cancel" => 0,
            _ => here,
        };
        if name == "emit" {
            self.emits.push(here)?;
        }
        self.replies.push(reply)?;
        Ok(())
    }

    fn stores(&mut self, a: usize, value: u64) -> u64 {
        if let Some(word) = self.memory.get_mut(a) {
            *word = value;
        }
        self.wrote = true;
        value
    }
}
