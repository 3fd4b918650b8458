//! The grammar of workloads, read slowly by a table of its lines: each fault of a line is looked for, and the lowest
//! code counts. It shares nothing with the parser, so that the two can be compared.
use std::alloc::Global;
use std::str;
use std::test::Fail;

/// No fault: above all codes.
const NONE: u32 = 12;

/// The lines 2 to 8 of the header, each with the range of its number; that of `words` in version 2.
const NUMBERS: [(&str, u64, u64); 7] = [
    ("words", 1, 1048576),
    ("callers", 1, 32),
    ("records", 1, 4096),
    ("ring", 2, 64),
    ("reads", 1, 4096),
    ("writes", 1, 4096),
    ("clock", 0, 4611686018427387904),
];

const ALGORITHMS: [&str; 6] = ["CGL", "TML", "OrecLazy", "OrecEager", "RingSW", "Serial"];

/// Among which lines a line stands.
#[derive(Clone, Copy, Drop, PartialEq, Eq)]
pub(crate) enum LineGroup {
    Header,
    Items,
    Script,
    Schedule,
    /// After `done`.
    End,
}

/// The lines after the header: where each may stand, its first word, whether it needs structures, and a letter for
/// each word that follows: a caller, an address, a number, a stripe, a key, turns, or (`A`) an algorithm.
pub(crate) const FORMS: &[(LineGroup, &str, bool, &str)] = &[
    (LineGroup::Items, "tx", false, "c"),
    (LineGroup::Items, "switch", false, "cA"),
    (LineGroup::Items, "schedule", false, ""),
    (LineGroup::Items, "done", false, ""),
    (LineGroup::Schedule, "go", false, "ct"),
    (LineGroup::Schedule, "done", false, ""),
    (LineGroup::Script, "end", false, ""),
    (LineGroup::Script, "read", false, "a"),
    (LineGroup::Script, "write", false, "an"),
    (LineGroup::Script, "add", false, "an"),
    (LineGroup::Script, "move", false, "aan"),
    (LineGroup::Script, "irrev", false, ""),
    (LineGroup::Script, "emit", false, "a"),
    (LineGroup::Script, "cancel", false, ""),
    (LineGroup::Script, "count", true, "sn"),
    (LineGroup::Script, "total", true, ""),
    (LineGroup::Script, "ladd", true, "k"),
    (LineGroup::Script, "ldel", true, "k"),
    (LineGroup::Script, "lhas", true, "k"),
    (LineGroup::Script, "llen", true, ""),
    (LineGroup::Script, "hadd", true, "k"),
    (LineGroup::Script, "hdel", true, "k"),
    (LineGroup::Script, "hhas", true, "k"),
    (LineGroup::Script, "tadd", true, "k"),
    (LineGroup::Script, "tdel", true, "k"),
    (LineGroup::Script, "thas", true, "k"),
    (LineGroup::Script, "tmin", true, ""),
];

/// The lines that version 2 has besides, or in place of those of that word: as [`FORMS`], with the kind of the region
/// in place of whether structures are needed. `r` is the number of a region, `p` a stripe of it, `l` the length of a
/// log.
const FORMS_TWO: &[(LineGroup, &str, &str, &str)] = &[
    (LineGroup::Items, "reserve", "", "cll"),
    (LineGroup::Script, "count", "counter", "rpn"),
    (LineGroup::Script, "total", "counter", "r"),
    (LineGroup::Script, "ladd", "list", "rk"),
    (LineGroup::Script, "ldel", "list", "rk"),
    (LineGroup::Script, "lhas", "list", "rk"),
    (LineGroup::Script, "llen", "list", "r"),
    (LineGroup::Script, "hadd", "hash", "rk"),
    (LineGroup::Script, "hdel", "hash", "rk"),
    (LineGroup::Script, "hhas", "hash", "rk"),
    (LineGroup::Script, "tadd", "tree", "rk"),
    (LineGroup::Script, "tdel", "tree", "rk"),
    (LineGroup::Script, "thas", "tree", "rk"),
    (LineGroup::Script, "tmin", "tree", "r"),
    (LineGroup::Script, "qput", "queue", "rk"),
    (LineGroup::Script, "qget", "queue", "r"),
    (LineGroup::Script, "mput", "summap", "rkn"),
    (LineGroup::Script, "mdel", "summap", "rk"),
    (LineGroup::Script, "mget", "summap", "rk"),
    (LineGroup::Script, "msum", "summap", "rkk"),
];

/// The kinds of regions: the greatest size, and the words of a region of so many: so many for each, and some besides.
const KINDS: [(&str, u64, u64, u64); 6] = [
    ("counter", 64, 1, 0),
    ("list", 4096, 2, 1),
    ("hash", 4096, 2, 16),
    ("tree", 4096, 3, 1),
    ("queue", 4096, 1, 2),
    ("summap", 4096, 5, 1),
];

/// A region: its kind by its place among them, its first word, the word after its last, and its size.
#[derive(Clone, Copy, Drop)]
struct Region {
    kind: usize,
    at: u64,
    end: u64,
    size: u64,
}

/// What the lines so far say.
#[derive(Drop)]
struct Reader {
    is_two: bool,
    /// How many regions there are to be, and those so far.
    count: u64,
    regions: Vec<Region>,
    /// Whether a schedule is allowed.
    is_step: bool,
    place: LineGroup,
    /// The number of the next line.
    line: usize,
    words: u64,
    callers: u64,
    structs: bool,
    items: u64,
    /// Of the open transaction.
    operations: u64,
    /// Whether an `irrev` is among them.
    asked: bool,
    turns: u64,
}

/// The first fault of a text, its line and its code, under `step` or under `run`.
pub(crate) fn first_fault(
    alloc: Global,
    text: &[u8],
    is_step: bool,
) -> Result<Option<(usize, u32)>, Fail> {
    if text.len() > 16777216 {
        return Ok(Some((0, 1)));
    }
    let mut reader = Reader {
        is_two: false,
        count: 0,
        regions: Vec::new(alloc),
        is_step,
        place: LineGroup::Header,
        line: 1,
        words: 0,
        callers: 0,
        structs: false,
        items: 0,
        operations: 0,
        asked: false,
        turns: 0,
    };
    let mut line = Vec::new(alloc);
    for byte in text {
        if reader.place == LineGroup::End {
            return Ok(Some((reader.line, 11)));
        }
        if *byte != b'\n' {
            line.push(*byte)?;
            continue;
        }
        let code = reader.read(alloc, line.as_slice())?;
        if code != NONE {
            return Ok(Some((reader.line, code)));
        }
        reader.line = reader.line.saturating_add(1);
        line.clear();
    }
    if reader.place == LineGroup::End {
        return Ok(None);
    }
    let code = if has_bad_byte(line.as_slice()) { 2 } else { 3 };
    Ok(Some((reader.line, code)))
}

fn has_bad_byte(line: &[u8]) -> bool {
    line.iter().any(|byte| *byte < 32 || *byte > 126)
}

/// A number of the form.
fn number(word: &str) -> Option<u64> {
    let is_led = word.len() != 1 && (word.is_empty() || word.starts_with('0'));
    let has_digits = word.bytes().all(|byte| byte.is_ascii_digit());
    if is_led || !has_digits {
        return None;
    }
    match word.parse::<u64>() {
        Ok(n) => Some(n),
        Err(_) => None,
    }
}

impl Reader {
    /// The lowest code of the next line; where it has no fault, goes on past it.
    fn read(&mut self, alloc: Global, line: &[u8]) -> Result<u32, Fail> {
        if has_bad_byte(line) {
            return Ok(2);
        }
        let mut words: Vec<&str> = Vec::new(alloc);
        for word in str::from_utf8(line)?.split(' ') {
            words.push(word)?;
        }
        let code = self.fault(words.as_slice());
        if code == NONE {
            if let Some(region) = self.region_of(words.as_slice()) {
                self.regions.push(region)?;
            }
            self.go_on(words.as_slice());
        }
        Ok(code)
    }

    fn fault(&self, words: &[&str]) -> u32 {
        if words.iter().any(|word| word.is_empty()) {
            return 4;
        }
        match (self.place, words) {
            (LineGroup::Header, words) if self.is_two && self.line >= 10 => self.layout_fault(
                words,
            ),
            (LineGroup::Header, [name, value]) => self.header_fault(name, value),
            (LineGroup::Header, _) => 4,
            (_, [name, operands @ ..]) => self.line_fault(name, operands),
            (_, []) => 4,
        }
    }

    fn header_fault(&self, name: &str, value: &str) -> u32 {
        let wanted = match self.line {
            1 => "stm",
            9 => "alg",
            10 => "structs",
            _ => match NUMBERS.get(self.line.wrapping_sub(2)) {
                Some((wanted, low, high)) => {
                    let most = if self.line == 2 && !self.is_two {
                        65536
                    } else {
                        *high
                    };
                    return if name == *wanted {
                        in_range(value, *low, most)
                    } else {
                        4
                    };
                }
                None => return 4,
            },
        };
        if name != wanted {
            return 4;
        }
        match (self.line, value) {
            (1, "1" | "2") => NONE,
            (9, _) => self.operand_fault(b'A', value),
            (10, "off") => NONE,
            (10, "on") => { if self.words < 1024 { 8 } else { NONE } }
            _ => 4,
        }
    }

    /// Of the header of version 2 after `alg`.
    fn layout_fault(&self, words: &[&str]) -> u32 {
        let is_over = self.line > 10 && self.regions.len() as u64 >= self.count;
        match words {
            ["regions", n] if self.line == 10 => in_range(n, 0, 16),
            ["policy", p] if is_over => policy_fault(p),
            ["region", kind, at, size] if self.line > 10 && !is_over => {
                self.region_fault(kind, at, size)
            }
            _ => 4,
        }
    }

    fn region_fault(&self, name: &str, at: &str, size: &str) -> u32 {
        for (kind, most, each, besides) in KINDS {
            if kind == name {
                let (Some(at), Some(size)) = (number(at), number(size)) else {
                    return 5;
                };
                if size < 1 || size > most {
                    return 6;
                }
                let above = self
                    .regions
                    .as_slice()
                    .last()
                    .map_or(0, |region| region.end);
                let end = at.saturating_add(size.wrapping_mul(each).wrapping_add(besides));
                return if at < above || end > self.words {
                    8
                } else {
                    NONE
                };
            }
        }
        4
    }

    /// The region of a line without a fault.
    fn region_of(&self, words: &[&str]) -> Option<Region> {
        let (["region", name, at, size], LineGroup::Header) = (words, self.place) else {
            return None;
        };
        let kind = KINDS.iter().position(|kind| kind.0 == *name)?;
        let (_, _, each, besides) = *KINDS.get(kind)?;
        let (at, size) = (number(at)?, number(size)?);
        let words = size.wrapping_mul(each).wrapping_add(besides);
        Some(Region {
            kind,
            at,
            end: at.saturating_add(words),
            size,
        })
    }

    /// The lowest code of an operation's region that is there: of another kind than is wanted, or without that stripe.
    fn kind_fault(&self, wanted: &str, operands: &[&str]) -> u32 {
        let region = operands.first().and_then(|word| number(word));
        let Some(region) = region.and_then(|n| self.regions.as_slice().get(n as usize)) else {
            return NONE;
        };
        if !KINDS.get(region.kind).is_some_and(|kind| kind.0 == wanted) {
            return 8;
        }
        match operands {
            [_, stripe, _] if wanted == "counter" => match number(stripe) {
                Some(n) if n >= region.size => 6,
                _ => NONE,
            },
            _ => NONE,
        }
    }

    fn line_fault(&self, name: &str, operands: &[&str]) -> u32 {
        if self.is_two {
            for (place, first, kind, kinds) in FORMS_TWO {
                if *place == self.place && *first == name && kinds.len() == operands.len() {
                    let mut lowest = self.standing_fault(name, false);
                    if *kind != "" {
                        lowest = lowest.min(self.kind_fault(kind, operands));
                    }
                    for (kind, word) in kinds.bytes().zip(operands.iter()) {
                        lowest = lowest.min(self.operand_fault(kind, word));
                    }
                    return lowest;
                }
            }
        }
        for (place, first, structured, kinds) in FORMS {
            let is_here = *place == self.place && !(self.is_two && *structured);
            if is_here && *first == name && kinds.len() == operands.len() {
                let mut lowest = self.standing_fault(name, *structured);
                for (kind, word) in kinds.bytes().zip(operands.iter()) {
                    lowest = lowest.min(self.operand_fault(kind, word));
                }
                return lowest;
            }
        }
        4
    }

    /// The lowest code that a line has whatever its numbers are.
    fn standing_fault(&self, name: &str, structured: bool) -> u32 {
        if name == "schedule" && !self.is_step {
            return 4;
        }
        if structured && !self.structs {
            return 8;
        }
        if name == "emit" && !self.asked {
            return 9;
        }
        let is_item = name == "tx" || name == "switch" || name == "reserve";
        let is_operation = self.place == LineGroup::Script && name != "end";
        if (is_item && self.items >= 65536) || (is_operation && self.operations >= 4096) {
            return 10;
        }
        NONE
    }

    fn operand_fault(&self, kind: u8, word: &str) -> u32 {
        if kind == b'A' {
            return if ALGORITHMS.iter().any(|name| *name == word) {
                NONE
            } else {
                7
            };
        }
        let Some(n) = number(word) else {
            return 5;
        };
        match kind {
            b'c' => { if n < self.callers { NONE } else { 6 } }
            b's' => { if n < 4 { NONE } else { 6 } }
            b'r' => {
                if n < self.regions.len() as u64 {
                    NONE
                } else {
                    6
                }
            }
            b'l' => { if n >= 1 && n <= 4096 { NONE } else { 6 } }
            b'k' => { if n < 4294967296 { NONE } else { 6 } }
            b't' if n < 1 || n > 1000000 => 6,
            b't' => {
                if self.turns.saturating_add(n) > 1000000 {
                    10
                } else {
                    NONE
                }
            }
            b'a' if n >= self.words => 6,
            b'a' => {
                let is_in = |region: &Region| { region.at <= n && n < region.end };
                if (self.structs && n >= 64 && n < 1024)
                    || self.regions.as_slice().iter().any(is_in)
                {
                    8
                } else {
                    NONE
                }
            }
            _ => NONE,
        }
    }

    /// Goes on past a line without a fault.
    fn go_on(&mut self, words: &[&str]) {
        let name = words.first().copied().unwrap_or("");
        let last = words.last().copied().unwrap_or("");
        let n = number(last).unwrap_or(0);
        match self.place {
            LineGroup::Header => match name {
                "stm" => self.is_two = last == "2",
                "regions" => self.count = n,
                "policy" => self.place = LineGroup::Items,
                "words" => self.words = n,
                "callers" => self.callers = n,
                "structs" => {
                    self.structs = last == "on";
                    self.place = LineGroup::Items;
                }
                _ => {}
            },
            LineGroup::Items => self.go_on_past_item(name),
            LineGroup::Script => {
                self.operations = self.operations.saturating_add(1);
                self.asked = self.asked || name == "irrev";
                if name == "end" {
                    self.place = LineGroup::Items;
                }
            }
            LineGroup::Schedule => {
                self.turns = self.turns.saturating_add(n);
                if name == "done" {
                    self.place = LineGroup::End;
                }
            }
            LineGroup::End => {}
        }
    }

    fn go_on_past_item(&mut self, name: &str) {
        match name {
            "schedule" => self.place = LineGroup::Schedule,
            "done" => self.place = LineGroup::End,
            _ => self.items = self.items.saturating_add(1),
        }
        if name == "tx" {
            self.place = LineGroup::Script;
            self.operations = 0;
            self.asked = false;
        }
    }
}

fn in_range(word: &str, low: u64, high: u64) -> u32 {
    match number(word) {
        None => 5,
        Some(n) => { if low <= n && n <= high { NONE } else { 6 } }
    }
}

/// The lowest code of the word of a policy.
fn policy_fault(word: &str) -> u32 {
    match word.split_once(':') {
        None => if word == "fixed" || word == "expert" {
            NONE
        } else {
            4
        },
        Some(("round", n)) => in_range(n, 1, 65536),
        Some(("state", n)) => in_range(n, 1, 16),
        Some(_) => 4,
    }
}
