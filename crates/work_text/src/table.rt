//! What may stand on a line: the table of the grammar, row by row.
ghost use Rattle.std.specs.Prelude.{◌≡◌, ◌∷◌, Err, OnOk, codes, take, drop, leb};
ghost use Rattle.work_text.specs.Grammar.{algorithm_of, algorithm, version_of, most_words, policy_of, numbered_policy, kind_of, kind_name, most_size, end_of, is_placed, region_of, ranged, sized, header_line, next_line, below, formed, named, scheduled, switched, is_plain, plain, caller_of, address, operands, move_of, count_of, stripe_of, placed_count, map_put_of, map_sum_of, reserve_of, op_of, keyed, keyless, placed_keyless, placed_keyed, go_of, one_word, two_words, three_words, four_words, four_words_two, filled, by_words};
ghost use Rattle.work_text.specs.Lines.{lines_of, number_of};
ghost use Rattle.work_text.specs.Reading.{judged, Leaves};
ghost use Rattle.work_text.specs.declared.code.TheConstants.{WORD};

use crate::draft::{Draft, Field, NextLine, Step, next_region};
use crate::lines::End;
use crate::parse::Mode;
use crate::{code, lines};
use data_regions::region::{Region, Structure};
use stm_model::alg::{ALGORITHMS, Alg};
use stm_model::config::{
    CLOCK_LIMIT, MAX_CALLERS, MAX_LOG, MAX_RECORDS, MAX_RING, MAX_WORDS, MIN_RING,
};
use work_profile::policy::{MOST_ROUND, MOST_STATE, Policy};
use work_script::op::{COUNTER, KEYED, KEYLESS, Op, PLACED_KEYED, PLACED_KEYLESS};
use work_script::workload::{
    Go, Header, MAX_CELLS, MAX_KEY, MAX_REGIONS, MAX_STRIPES, MAX_TURNS, MAX_WORDS_ONE, STRIPES,
    STRUCTS_BEGIN, STRUCTS_END, Version,
};

/// The structures that a region may be for.
const KINDS: [Structure; 6] = [
    Structure::Counter,
    Structure::List,
    Structure::Hash,
    Structure::Tree,
    Structure::Queue,
    Structure::SumMap,
];

/// A word that is a number.
#[inline(always)]
fn formed(word: &[u8]) -> Result<u64, u32>
    ensures { result ≡ formed (number_of word.now) }
{
    lines::number(word).ok_or(code::NUMBER)
}

/// A number below an end.
#[inline(always)]
fn below(end: usize, n: u64) -> Result<usize, u32>
    ensures { result ≡ below end n }
{
    if n < end as u64 {
        Ok(n as usize)
    } else {
        Err(code::RANGE)
    }
}

/// A number from low to high.
fn ranged(low: u64, high: u64, n: u64) -> Result<u64, u32>
    ensures { result ≡ ranged low high n }
{
    if low <= n && n <= high {
        Ok(n)
    } else {
        Err(code::RANGE)
    }
}

/// A line that gives a number its name and its range.
fn sized(name: &[u8], low: u64, high: u64, w: &[u8], v: &[u8]) -> Result<u64, u32>
    ensures { result ≡ sized name.now low high w.now v.now }
{
    if !lines::is(w, name) {
        return Err(code::WORD);
    }
    ranged(low, high, formed(v)?)
}

/// The version that a word names.
fn version_of(word: &[u8]) -> Result<Version, u32>
    ensures { result ≡ version_of word.now }
{
    if lines::is(word, b"1") {
        return Ok(Version::One);
    }
    if lines::is(word, b"2") {
        return Ok(Version::Two);
    }
    Err(code::WORD)
}

/// A line that names the version.
fn first_line(w: &[u8], v: &[u8]) -> Result<Version, u32>
    ensures { result ≡ named (codes "stm") w.now (version_of v.now) }
{
    if lines::is(w, b"stm") {
        version_of(v)
    } else {
        Err(code::WORD)
    }
}

/// The greatest number of words of a version.
fn most_words(version: Version) -> u64
    ensures { result ≡ most_words version }
{
    match version {
        Version::One => MAX_WORDS_ONE as u64,
        Version::Two => MAX_WORDS as u64,
    }
}

/// Of these algorithms the first that has this name.
fn algorithm_of(algs: &[Alg], word: &[u8]) -> Result<Alg, u32>
    ensures { result ≡ algorithm_of algs.now word.now }
{
    for alg in algs {
        if lines::is(word, alg.name().as_bytes()) {
            return Ok(*alg);
        }
    }
    Err(code::ALG)
}

/// The algorithm of this name.
fn algorithm(word: &[u8]) -> Result<Alg, u32>
    ensures { result ≡ algorithm word.now }
{
    algorithm_of(&ALGORITHMS, word)
}

/// A line that names the algorithm at the start.
fn first_algorithm(w: &[u8], v: &[u8]) -> Result<Alg, u32>
    ensures { result ≡ named (codes "alg") w.now (algorithm v.now) }
{
    if lines::is(w, b"alg") {
        algorithm(v)
    } else {
        Err(code::WORD)
    }
}

/// A line that says whether structures are on, with so many words.
fn structures(words: usize, w: &[u8], v: &[u8]) -> Result<bool, u32>
    ensures { result ≡ named (codes "structs") w.now (switched words v.now) }
{
    if !lines::is(w, b"structs") {
        return Err(code::WORD);
    }
    if lines::is(v, b"off") {
        return Ok(false);
    }
    if !lines::is(v, b"on") {
        return Err(code::WORD);
    }
    if STRUCTS_END <= words {
        Ok(true)
    } else {
        Err(code::REGION)
    }
}

/// A word, parted after its first six bytes: the name of a policy with its colon, and its number.
fn parted(word: &[u8]) -> (&[u8], &[u8])
    ensures name { result.0.now ≡ take 6 word.now }
    ensures number { result.1.now ≡ drop 6 word.now }
{
    if word.len() < 6 {
        (word, &word[word.len()..])
    } else {
        (&word[..6], &word[6..])
    }
}

/// The policy of a name with its colon, and of the number after it.
fn numbered_policy(name: &[u8], number: &[u8]) -> Result<Policy, u32>
    ensures { result ≡ numbered_policy name.now number.now }
{
    if lines::is(name, b"round:") {
        let n = ranged(1, MOST_ROUND as u64, formed(number)?)?;
        return Ok(Policy::Round(n as u32));
    }
    if lines::is(name, b"state:") {
        let n = ranged(1, MOST_STATE as u64, formed(number)?)?;
        return Ok(Policy::State(n as u32));
    }
    Err(code::WORD)
}

/// The policy of a word.
fn policy_of(word: &[u8]) -> Result<Policy, u32>
    ensures { result ≡ policy_of word.now }
{
    if lines::is(word, b"fixed") {
        return Ok(Policy::Fixed);
    }
    if lines::is(word, b"expert") {
        return Ok(Policy::Expert);
    }
    let (name, number) = parted(word);
    numbered_policy(name, number)
}

/// A line that names the policy.
fn policy(w: &[u8], v: &[u8]) -> Result<Policy, u32>
    ensures { result ≡ named (codes "policy") w.now (policy_of v.now) }
{
    if lines::is(w, b"policy") {
        policy_of(v)
    } else {
        Err(code::WORD)
    }
}

/// The word of a structure, as `region` lines have it.
fn kind_name(kind: Structure) -> &'static str
    ensures { result.now ≡ kind_name kind }
{
    match kind {
        Structure::Counter => "counter",
        Structure::List => "list",
        Structure::Hash => "hash",
        Structure::Tree => "tree",
        Structure::Queue => "queue",
        Structure::SumMap => "summap",
    }
}

/// Of these structures the first one of this word.
fn kind_of(kinds: &[Structure], word: &[u8]) -> Result<Structure, u32>
    ensures { result ≡ kind_of kinds.now word.now }
{
    for kind in kinds {
        if lines::is(word, kind_name(*kind).as_bytes()) {
            return Ok(*kind);
        }
    }
    Err(code::WORD)
}

/// The greatest number of a structure's stripes or cells.
fn most_size(kind: Structure) -> u64
    ensures { result ≡ most_size kind }
{
    match kind {
        Structure::Counter => MAX_STRIPES,
        Structure::List
        | Structure::Hash
        | Structure::Tree
        | Structure::Queue
        | Structure::SumMap => MAX_CELLS,
    }
}

/// Whether the last of the regions ends at the address or before it.
fn end_by(regions: &[Region], a: usize) -> bool
    ensures { result ≡ leb (end_of regions.now) a }
{
    match regions.last() {
        None => true,
        Some(last) => last.ends_by(a),
    }
}

/// Whether the region begins where the one above it ends or later, and ends within so many words.
fn is_placed(regions: &[Region], words: usize, region: Region) -> bool
    ensures { result ≡ is_placed regions.now words region }
{
    end_by(regions, region.start()) && region.ends_by(words)
}

/// A region: its word, its first word and its size of the form before the size is in range, and that before it has
/// its place.
fn region_of(draft: &Draft, k: &[u8], a: &[u8], v: &[u8]) -> Result<Step, u32>
    ensures { result ≡ region_of draft.now k.now a.now v.now }
{
    let header = draft.header();
    let kind = kind_of(&KINDS, k)?;
    let start = formed(a)?;
    let size = formed(v)?;
    let size = ranged(1, most_size(kind), size)?;
    let region = Region::new(kind, start as usize, size as usize);
    let regions = header.regions.as_slice();
    if !is_placed(regions, header.words, region) {
        return Err(code::REGION);
    }
    let next = draft.next_region(regions.len() + 1);
    Ok(Step::Head(next, Field::Region(region)))
}

/// A line of the header: what it gives.
fn header_line(place: NextLine, h: &Header, w: &[u8], v: &[u8]) -> Result<Field, u32>
    ensures { result ≡ header_line place h.now w.now v.now }
{
    let field = match place {
        NextLine::Version => Field::Version(first_line(w, v)?),
        NextLine::Words => Field::Words(sized(b"words", 1, most_words(h.version), w, v)? as usize),
        NextLine::Callers => Field::Callers(
            sized(b"callers", 1, MAX_CALLERS as u64, w, v)? as usize,
        ),
        NextLine::Records => Field::Records(
            sized(b"records", 1, MAX_RECORDS as u64, w, v)? as usize,
        ),
        NextLine::Ring => {
            Field::Ring(sized(b"ring", MIN_RING as u64, MAX_RING as u64, w, v)? as usize)
        }
        NextLine::Reads => Field::Reads(sized(b"reads", 1, MAX_LOG as u64, w, v)? as usize),
        NextLine::Writes => Field::Writes(sized(b"writes", 1, MAX_LOG as u64, w, v)? as usize),
        NextLine::Clock => Field::Clock(sized(b"clock", 0, CLOCK_LIMIT, w, v)?),
        NextLine::Algorithm => Field::Algorithm(first_algorithm(w, v)?),
        NextLine::Structures => Field::Structures(structures(h.words, w, v)?),
        NextLine::Policy => Field::Policy(policy(w, v)?),
        NextLine::Regions | NextLine::Region | NextLine::Items | NextLine::Ops | NextLine::Turns =>
            {
                return Err(code::WORD);
            }
    };
    Ok(field)
}

/// The line that follows one of the header.
fn next_line(version: Version, place: NextLine) -> NextLine
    ensures { result ≡ next_line version place }
{
    match place {
        NextLine::Version => NextLine::Words,
        NextLine::Words => NextLine::Callers,
        NextLine::Callers => NextLine::Records,
        NextLine::Records => NextLine::Ring,
        NextLine::Ring => NextLine::Reads,
        NextLine::Reads => NextLine::Writes,
        NextLine::Writes => NextLine::Clock,
        NextLine::Clock => NextLine::Algorithm,
        NextLine::Algorithm => match version {
            Version::One => NextLine::Structures,
            Version::Two => NextLine::Regions,
        },
        NextLine::Structures
        | NextLine::Regions
        | NextLine::Region
        | NextLine::Policy
        | NextLine::Items
        | NextLine::Ops
        | NextLine::Turns => NextLine::Items,
    }
}

/// A caller of the header.
fn caller_of(draft: &Draft, word: &[u8]) -> Result<usize, u32>
    ensures { result ≡ caller_of draft.now word.now }
{
    below(draft.header().callers, formed(word)?)
}

/// Whether the address is in no region.
#[inline(always)]
fn is_plain(regions: &[Region], a: usize) -> bool
    ensures { result ≡ is_plain regions.now a }
{
    for region in regions {
        if region.has(a) {
            return false;
        }
    }
    true
}

/// A plain address: with structures on in version 1 one that isn't theirs, in version 2 one of no region.
#[inline(always)]
fn plain(header: &Header, a: usize) -> Result<usize, u32>
    ensures { result ≡ plain header.now a }
{
    let regions = header.regions.as_slice();
    match header.version {
        Version::One => {
            if !regions.is_empty() && STRUCTS_BEGIN <= a && a < STRUCTS_END {
                Err(code::REGION)
            } else {
                Ok(a)
            }
        }
        Version::Two => {
            if is_plain(regions, a) {
                Ok(a)
            } else {
                Err(code::REGION)
            }
        }
    }
}

/// An address.
#[inline(always)]
fn address(draft: &Draft, word: &[u8]) -> Result<usize, u32>
    ensures { result ≡ address draft.now word.now }
{
    let header = draft.header();
    plain(header, below(header.words, formed(word)?)?)
}

/// An address and a value, both of the form before the address is in range.
#[inline(always)]
fn operands(draft: &Draft, a: &[u8], v: &[u8]) -> Result<(usize, u64), u32>
    ensures { result ≡ operands draft.now a.now v.now }
{
    let header = draft.header();
    let at = formed(a)?;
    let value = formed(v)?;
    Ok((plain(header, below(header.words, at)?)?, value))
}

/// Two addresses and a value: all of the form before an address is in range, and both in range before one is
/// plain.
#[inline(always)]
fn move_of(draft: &Draft, a: &[u8], b: &[u8], v: &[u8]) -> Result<Op, u32>
    ensures { result ≡ move_of draft.now a.now b.now v.now }
{
    let header = draft.header();
    let source = formed(a)?;
    let target = formed(b)?;
    let value = formed(v)?;
    let from = below(header.words, source)?;
    let onto = below(header.words, target)?;
    let from = plain(header, from)?;
    Ok(Op::Move(from, plain(header, onto)?, value))
}

/// A stripe and an amount, both of the form before the stripe is in range.
fn count_of(a: &[u8], v: &[u8]) -> Result<Op, u32>
    ensures { result ≡ count_of a.now v.now }
{
    let number = formed(a)?;
    let amount = formed(v)?;
    Ok(Op::Count(COUNTER, below(STRIPES, number)?, amount))
}

/// Of these operations the first one of this name.
fn op_of(ops: &[Op], word: &[u8]) -> Result<Op, u32>
    ensures { result ≡ op_of ops.now word.now }
{
    for op in ops {
        if lines::is(word, op.name().as_bytes()) {
            return Ok(*op);
        }
    }
    Err(code::WORD)
}

/// An operation on a key.
fn keyed(w: &[u8], v: &[u8]) -> Result<Op, u32>
    ensures { result ≡ keyed w.now v.now }
{
    let op = op_of(&KEYED, w)?;
    let key = ranged(0, MAX_KEY, formed(v)?)?;
    Ok(op.with_key(key as u32))
}

/// An operation on a structure that takes nothing, by its word alone: in version 1.
fn keyless(draft: &Draft, w: &[u8]) -> Result<Step, u32>
    ensures { result ≡ keyless draft.now.header.version draft.now w.now }
{
    match draft.header().version {
        Version::One => draft.structured(op_of(&KEYLESS, w)?),
        Version::Two => Err(code::WORD),
    }
}

/// An operation that takes a region alone.
fn placed_keyless(draft: &Draft, w: &[u8], v: &[u8]) -> Result<Step, u32>
    ensures { result ≡ placed_keyless draft.now w.now v.now }
{
    let op = op_of(&PLACED_KEYLESS, w)?;
    let region = below(draft.header().regions.as_slice().len(), formed(v)?)?;
    draft.structured(op.with_region(region))
}

/// An operation that takes a region and a key, both of the form before either is in range.
fn placed_keyed(draft: &Draft, w: &[u8], a: &[u8], v: &[u8]) -> Result<Step, u32>
    ensures { result ≡ placed_keyed draft.now w.now a.now v.now }
{
    let op = op_of(&PLACED_KEYED, w)?;
    let number = formed(a)?;
    let key = formed(v)?;
    let region = below(draft.header().regions.as_slice().len(), number)?;
    let key = ranged(0, MAX_KEY, key)?;
    draft.structured(op.with_region(region).with_key(key as u32))
}

/// A stripe of a region, which is to be a counter.
fn stripe_of(regions: &[Region], region: usize, stripe: u64) -> Result<usize, u32>
    ensures { result ≡ stripe_of regions.now region stripe }
{
    match regions.get(region) {
        Some(Region::Counter(counter)) => below(counter.stripes, stripe),
        _ => Err(code::REGION),
    }
}

/// A region, a stripe and an amount, all of the form before the region and the stripe are in range.
fn placed_count(draft: &Draft, a: &[u8], b: &[u8], v: &[u8]) -> Result<Step, u32>
    ensures { result ≡ placed_count draft.now a.now b.now v.now }
{
    let number = formed(a)?;
    let stripe = formed(b)?;
    let amount = formed(v)?;
    let regions = draft.header().regions.as_slice();
    let region = below(regions.len(), number)?;
    let stripe = stripe_of(regions, region, stripe)?;
    draft.structured(Op::Count(region, stripe, amount))
}

/// A region, a key and a value, all of the form before the region and the key are in range.
fn map_put_of(draft: &Draft, a: &[u8], b: &[u8], v: &[u8]) -> Result<Step, u32>
    ensures { result ≡ map_put_of draft.now a.now b.now v.now }
{
    let number = formed(a)?;
    let key = formed(b)?;
    let value = formed(v)?;
    let region = below(draft.header().regions.as_slice().len(), number)?;
    let key = ranged(0, MAX_KEY, key)?;
    draft.structured(Op::MapPut(region, key as u32, value))
}

/// A region and two keys, all of the form before any is in range.
fn map_sum_of(draft: &Draft, a: &[u8], b: &[u8], v: &[u8]) -> Result<Step, u32>
    ensures { result ≡ map_sum_of draft.now a.now b.now v.now }
{
    let number = formed(a)?;
    let low = formed(b)?;
    let high = formed(v)?;
    let region = below(draft.header().regions.as_slice().len(), number)?;
    let low = ranged(0, MAX_KEY, low)?;
    let high = ranged(0, MAX_KEY, high)?;
    draft.structured(Op::MapSum(region, low as u32, high as u32))
}

/// A caller and the lengths of its logs, all of the form before any is in range.
fn reserve_of(draft: &Draft, a: &[u8], b: &[u8], v: &[u8]) -> Result<Step, u32>
    ensures { result ≡ reserve_of draft.now a.now b.now v.now }
{
    let number = formed(a)?;
    let reads = formed(b)?;
    let writes = formed(v)?;
    let caller = below(draft.header().callers, number)?;
    let reads = ranged(1, MAX_LOG as u64, reads)?;
    let writes = ranged(1, MAX_LOG as u64, writes)?;
    draft.lengthened(caller, reads as usize, writes as usize)
}

/// A caller and its turns, both of the form before either is in range.
fn go_of(draft: &Draft, a: &[u8], v: &[u8]) -> Result<Go, u32>
    ensures { result ≡ go_of draft.now a.now v.now }
{
    let number = formed(a)?;
    let turns = formed(v)?;
    let caller = below(draft.header().callers, number)?;
    let turns = ranged(1, MAX_TURNS, turns)? as u32;
    Ok(Go { caller, turns })
}

fn scheduled(mode: Mode) -> Result<Step, u32>
    ensures { result ≡ scheduled mode }
{
    match mode {
        Mode::Run => Err(code::WORD),
        Mode::Step => Ok(Step::Schedule),
    }
}

fn one_word(mode: Mode, draft: &Draft, w: &[u8]) -> Result<Step, u32>
    ensures { result ≡ one_word draft.now.place mode draft.now w.now }
{
    match draft.place() {
        NextLine::Items => {
            if lines::is(w, b"done") {
                return Ok(Step::Done);
            }
            if lines::is(w, b"schedule") {
                return scheduled(mode);
            }
            Err(code::WORD)
        }
        NextLine::Turns => {
            if lines::is(w, b"done") {
                Ok(Step::Done)
            } else {
                Err(code::WORD)
            }
        }
        NextLine::Ops => {
            if lines::is(w, b"irrev") {
                return draft.added(Op::Irrev);
            }
            if lines::is(w, b"cancel") {
                return draft.added(Op::Cancel);
            }
            if lines::is(w, b"end") {
                return Ok(Step::End);
            }
            keyless(draft, w)
        }
        _ => Err(code::WORD),
    }
}

fn two_words(mode: Mode, draft: &Draft, w: &[u8], v: &[u8]) -> Result<Step, u32>
    ensures { result ≡ filled v.now (two_words draft.now.place mode draft.now w.now v.now) }
{
    if v.is_empty() {
        return Err(code::WORD);
    }
    match draft.place() {
        NextLine::Items => {
            if !lines::is(w, b"tx") {
                return Err(code::WORD);
            }
            draft.begun(caller_of(draft, v)?)
        }
        NextLine::Ops => {
            if lines::is(w, b"read") {
                return draft.added(Op::Read(address(draft, v)?));
            }
            if lines::is(w, b"emit") {
                return draft.emitted(address(draft, v)?);
            }
            match draft.header().version {
                Version::One => draft.structured(keyed(w, v)?),
                Version::Two => placed_keyless(draft, w, v),
            }
        }
        NextLine::Turns => Err(code::WORD),
        NextLine::Regions => {
            let count = sized(b"regions", 0, MAX_REGIONS as u64, w, v)? as usize;
            Ok(Step::Count(next_region(count, 0), count))
        }
        place => {
            let header = draft.header();
            let field = header_line(place, header, w, v)?;
            Ok(Step::Head(next_line(header.version, place), field))
        }
    }
}

#[inline(always)]
fn three_words(draft: &Draft, w: &[u8], a: &[u8], v: &[u8]) -> Result<Step, u32>
    ensures { result
        ≡ filled a.now (filled v.now (three_words draft.now.place draft.now w.now a.now v.now)) }
{
    if a.is_empty() || v.is_empty() {
        return Err(code::WORD);
    }
    match draft.place() {
        NextLine::Ops => {
            if lines::is(w, b"write") {
                let (at, value) = operands(draft, a, v)?;
                return draft.added(Op::Write(at, value));
            }
            if lines::is(w, b"add") {
                let (at, value) = operands(draft, a, v)?;
                return draft.added(Op::Add(at, value));
            }
            match draft.header().version {
                Version::One => {
                    if lines::is(w, b"count") {
                        draft.structured(count_of(a, v)?)
                    } else {
                        Err(code::WORD)
                    }
                }
                Version::Two => placed_keyed(draft, w, a, v),
            }
        }
        NextLine::Items => {
            if !lines::is(w, b"switch") {
                return Err(code::WORD);
            }
            let caller = caller_of(draft, a)?;
            draft.changed(caller, algorithm(v)?)
        }
        NextLine::Turns => {
            if !lines::is(w, b"go") {
                return Err(code::WORD);
            }
            draft.planned(go_of(draft, a, v)?)
        }
        _ => Err(code::WORD),
    }
}

#[inline(always)]
fn four_words(draft: &Draft, w: &[u8], a: &[u8], b: &[u8], v: &[u8]) -> Result<Step, u32>
    ensures { result
        ≡ filled a.now
        (filled b.now
        (filled v.now (four_words draft.now.place draft.now w.now a.now b.now v.now))) }
{
    if a.is_empty() || b.is_empty() || v.is_empty() {
        return Err(code::WORD);
    }
    match draft.place() {
        NextLine::Region => {
            if lines::is(w, b"region") {
                region_of(draft, a, b, v)
            } else {
                Err(code::WORD)
            }
        }
        NextLine::Items => match draft.header().version {
            Version::One => Err(code::WORD),
            Version::Two => {
                if lines::is(w, b"reserve") {
                    reserve_of(draft, a, b, v)
                } else {
                    Err(code::WORD)
                }
            }
        },
        NextLine::Ops => {
            if lines::is(w, b"move") {
                return draft.added(move_of(draft, a, b, v)?);
            }
            match draft.header().version {
                Version::One => Err(code::WORD),
                Version::Two => four_words_two(draft, w, a, b, v),
            }
        }
        _ => Err(code::WORD),
    }
}

/// The operations of four words that version 2 has besides.
fn four_words_two(draft: &Draft, w: &[u8], a: &[u8], b: &[u8], v: &[u8]) -> Result<Step, u32>
    ensures { result ≡ four_words_two draft.now w.now a.now b.now v.now }
{
    if lines::is(w, b"count") {
        return placed_count(draft, a, b, v);
    }
    if lines::is(w, b"mput") {
        return map_put_of(draft, a, b, v);
    }
    if lines::is(w, b"msum") {
        return map_sum_of(draft, a, b, v);
    }
    Err(code::WORD)
}

/// What the first line of a text does after those before it, or its lowest code; and where it has none, what stands
/// after that line.
pub fn step_of<'t>(mode: Mode, draft: &Draft, text: &'t [u8]) -> (Result<Step, u32>, &'t [u8])
    ensures step { result.0 ≡ judged (by_words mode draft.now) (lines_of text.now) }
    ensures rest { OnOk result.0 (Leaves text.now result.1.now) }
{
    let (i, end) = lines::first_word(text);
    let w = &text[..i];
    match end {
        End::Space => after_one(mode, draft, w, lines::past(text, i)),
        End::Line => (one_word(mode, draft, w), lines::past(text, i)),
        End::Bad => (Err(code::BYTES), text),
        End::Text => (Err(code::UNENDED), text),
    }
}

/// The same from the second word on, where `w` is the first.
#[inline(always)]
fn after_one<'t>(
    mode: Mode,
    draft: &Draft,
    w: &[u8],
    text: &'t [u8],
) -> (Result<Step, u32>, &'t [u8])
    ensures step { result.0
        ≡ judged (λ ws. by_words mode draft.now (w.now ∷ ws)) (lines_of text.now) }
    ensures rest { OnOk result.0 (Leaves text.now result.1.now) }
{
    let (i, end) = lines::first_word(text);
    let v = &text[..i];
    match end {
        End::Space => after_two(mode, draft, w, v, lines::past(text, i)),
        End::Line => (two_words(mode, draft, w, v), lines::past(text, i)),
        End::Bad => (Err(code::BYTES), text),
        End::Text => (Err(code::UNENDED), text),
    }
}

/// The same from the third word on.
#[inline(always)]
fn after_two<'t>(
    _mode: Mode,
    draft: &Draft,
    w: &[u8],
    a: &[u8],
    text: &'t [u8],
) -> (Result<Step, u32>, &'t [u8])
    ensures step { result.0
        ≡ judged (λ ws. by_words _mode draft.now (w.now ∷ a.now ∷ ws)) (lines_of text.now) }
    ensures rest { OnOk result.0 (Leaves text.now result.1.now) }
{
    let (i, end) = lines::first_word(text);
    let v = &text[..i];
    match end {
        End::Space => after_three(_mode, draft, w, a, v, lines::past(text, i)),
        End::Line => (three_words(draft, w, a, v), lines::past(text, i)),
        End::Bad => (Err(code::BYTES), text),
        End::Text => (Err(code::UNENDED), text),
    }
}

/// The same from the fourth word on.
#[inline(always)]
fn after_three<'t>(
    _mode: Mode,
    draft: &Draft,
    w: &[u8],
    a: &[u8],
    b: &[u8],
    text: &'t [u8],
) -> (Result<Step, u32>, &'t [u8])
    ensures step { result.0
        ≡ judged (λ ws. by_words _mode draft.now (w.now ∷ a.now ∷ b.now ∷ ws)) (lines_of text.now) }
    ensures rest { OnOk result.0 (Leaves text.now result.1.now) }
{
    let (i, end) = lines::first_word(text);
    let v = &text[..i];
    match end {
        End::Space => (Err(too_many(lines::past(text, i))), text),
        End::Line => (four_words(draft, w, a, b, v), lines::past(text, i)),
        End::Bad => (Err(code::BYTES), text),
        End::Text => (Err(code::UNENDED), text),
    }
}

/// The lowest code of a line that has a word too many, from that word on.
#[cold]
fn too_many(text: &[u8]) -> u32
    ensures { judged (λ _. Err WORD) (lines_of text.now) ≡ Err result }
{
    for b in text {
        if *b == b'\n' {
            return code::WORD;
        }
        if !lines::may_stand(*b) {
            return code::BYTES;
        }
    }
    code::UNENDED
}
