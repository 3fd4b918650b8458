//! Random operations on structures beside plain sets of keys, and the words that the sets' keys leave.
use rand_core::utils::NextWord;
use rand_pcg::Pcg32;
use std::alloc::Global;
use std::test::Fail;

#[derive(Clone, Copy, Drop)]
enum Call {
    Insert,
    Remove,
    Contains,
    Length,
    Least,
}

/// The operations: the word, the set, and what is done there.
const CALLS: [(&str, usize, Call); 11] = [
    ("ladd", 0, Call::Insert),
    ("ldel", 0, Call::Remove),
    ("lhas", 0, Call::Contains),
    ("llen", 0, Call::Length),
    ("hadd", 1, Call::Insert),
    ("hdel", 1, Call::Remove),
    ("hhas", 1, Call::Contains),
    ("tadd", 2, Call::Insert),
    ("tdel", 2, Call::Remove),
    ("thas", 2, Call::Contains),
    ("tmin", 2, Call::Least),
];

/// Which of the keys 0 to 63 are in the list, the hash set and the tree.
pub type Sets = [[bool; 64]; 3];

/// For how many keys they have room.
const ROOMS: [usize; 3] = [32, 64, 64];

/// An operation of [`CALLS`], by its place there, and its key.
#[derive(Clone, Copy, Drop)]
pub struct Operation {
    call: u32,
    key: u32,
}

/// Any operation on any key.
pub fn draw(draws: &mut Pcg32) -> Operation {
    Operation {
        call: draws.next_word() % 11,
        key: draws.next_word() % 64,
    }
}

impl Operation {
    /// Its line in a workload.
    pub fn line(&self, alloc: Global) -> Result<String, Fail> {
        let (word, _, call) = CALLS[(self.call % 11) as usize];
        let key = self.key;
        let line = match call {
            Call::Length | Call::Least => format!(in alloc; "{word}\n")?,
            Call::Insert | Call::Remove | Call::Contains => format!(in alloc; "{word} {key}\n")?,
        };
        Ok(line)
    }

    /// What it replies over plain sets, and does to them.
    pub fn reply(&self, sets: &mut Sets) -> u64 {
        let (_, set, call) = CALLS[(self.call % 11) as usize];
        match (sets.get_mut(set), ROOMS.get(set)) {
            (Some(set), Some(room)) => reply(set, *room, call, self.key as usize),
            _ => 0,
        }
    }
}

/// The same over one set, with room for so many keys.
fn reply(set: &mut [bool], room: usize, call: Call, key: usize) -> u64 {
    let count = set.iter().filter(|there| **there).count();
    let least = set.iter().position(|there| *there);
    let Some(there) = set.get_mut(key) else {
        return 0;
    };
    match call {
        Call::Insert => {
            if *there {
                return 0;
            }
            if count >= room {
                return 2;
            }
            *there = true;
            1
        }
        Call::Remove => {
            let was = *there;
            *there = false;
            u64::from(was)
        }
        Call::Contains => u64::from(*there),
        Call::Length => count as u64,
        Call::Least => match least {
            Some(key) => (key as u64).wrapping_add(1),
            None => 0,
        },
    }
}

/// The 1,024 words of a report's memory.
pub fn words_of(alloc: Global, report: &str) -> Result<Vec<u64>, Fail> {
    let mut words = vec![in alloc; 0; 1024]?;
    for line in report.lines() {
        let Some(pair) = line.strip_prefix("mem ") else {
            continue;
        };
        if let Some((address, word)) = pair.split_once(' ') {
            if let Some(place) = words.get_mut(address.parse::<usize>()?) {
                *place = word.parse::<u64>()?;
            }
        }
    }
    Ok(words)
}

/// Whether the words are those of a well formed list, hash set or tree of these keys. A walk to each of them
/// finds it, so its tag and a link to its cell aren't 0; and these are all words that aren't.
pub fn holds(words: &[u64], set: usize, keys: &[bool]) -> bool {
    let region = match set {
        0 => words.get(128..193),
        1 => words.get(256..400),
        _ => words.get(512..705),
    };
    let Some(region) = region else {
        return false;
    };
    let filled = region.iter().filter(|word| **word != 0).count();
    let count = keys.iter().filter(|there| **there).count();
    for (key, there) in keys.iter().enumerate() {
        if *there && !finds(region, set, key) {
            return false;
        }
    }
    filled.checked_sub(count) == Some(count)
}

/// Whether a walk from the key's head, or from the root, comes to the key.
fn finds(region: &[u64], set: usize, key: usize) -> bool {
    let tag = (key as u64).wrapping_add(1);
    let head = if set == 1 { key % 16 } else { 0 };
    let mut number = match region.get(head) {
        Some(number) => *number,
        None => 0,
    };
    for _ in 0..64 {
        let next = match cell(region, set, number) {
            Some([here, ..]) if *here == tag => return true,
            Some([here, next]) if *here < tag => *next,
            Some([here, left, _]) if *here > tag => *left,
            Some([_, _, right]) => *right,
            _ => return false,
        };
        number = next;
    }
    false
}

/// The words of the cell of this number: its tag, and its link or both.
fn cell(region: &[u64], set: usize, number: u64) -> Option<&[u64]> {
    let index = number.checked_sub(1)? as usize;
    match set {
        0 => region.get(1..)?.chunks_exact(2).nth(index),
        1 => region.get(16..)?.chunks_exact(2).nth(index),
        _ => region.get(1..)?.chunks_exact(3).nth(index),
    }
}
