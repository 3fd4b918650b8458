//! The forms of a workload's lines: in each a capital letter stands for a word.
use crate::known::{Kind, Known, Span, kinds};
use crate::letters::{Letter, Values, letters_of, offer_of};
use crate::offer::Offer;
use crate::spot::LineKind;
use std::alloc::{AllocError, Global};
use stm_model::config::{
    CLOCK_LIMIT, MAX_CALLERS, MAX_LOG, MAX_RECORDS, MAX_RING, MAX_WORDS, MIN_RING,
};
use work_check::words::first_word;
use work_profile::policy::{MOST_ROUND, MOST_STATE};
use work_script::workload::{MAX_REGIONS, MAX_WORDS_ONE, Version};
use work_text::lines;

/// Operations of both versions.
const PLAIN: [&str; 8] = [
    "read A",
    "write A V",
    "add A V",
    "move A B V",
    "irrev",
    "emit A",
    "cancel",
    "end",
];

/// Operations on the structures of version 1.
const STRUCTURED: [&str; 13] = [
    "count S V",
    "total",
    "ladd K",
    "ldel K",
    "lhas K",
    "llen",
    "hadd K",
    "hdel K",
    "hhas K",
    "tadd K",
    "tdel K",
    "thas K",
    "tmin",
];

/// Operations on the regions of version 2.
const PLACED: [&str; 19] = [
    "count R S V",
    "total R",
    "ladd R K",
    "ldel R K",
    "lhas R K",
    "llen R",
    "hadd R K",
    "hdel R K",
    "hhas R K",
    "tadd R K",
    "tdel R K",
    "thas R K",
    "tmin R",
    "qput R K",
    "qget R",
    "mput R K V",
    "mdel R K",
    "mget R K",
    "msum R K L",
];

const ITEMS: [&str; 5] = ["tx C", "switch C ALG", "reserve C X Y", "schedule", "done"];

const TURNS: [&str; 2] = ["go C N", "done"];

const ALGORITHMS: [&str; 6] = [
    "alg CGL",
    "alg TML",
    "alg OrecLazy",
    "alg OrecEager",
    "alg RingSW",
    "alg Serial",
];

/// Whether a word is that of an operation on a structure, in some version.
pub fn is_structured(word: &[u8]) -> bool {
    PLACED.iter().any(|form| {
        let (first, _) = first_word(form.as_bytes());
        lines::is(first, word)
    })
}

/// The forms that a place has, as far as the text above tells; those that can't stand there in fact are among them.
/// These are the words of the line that stands there.
pub fn candidates(alloc: Global, known: &Known, words: &[&[u8]]) -> Result<Vec<Offer>, AllocError> {
    let mut offers = Vec::new(alloc);
    put_candidates(&mut offers, known, words)?;
    Ok(offers)
}

fn put_candidates(
    offers: &mut Vec<Offer>,
    known: &Known,
    words: &[&[u8]],
) -> Result<(), AllocError> {
    match known.spot.place {
        LineKind::Head(number) => put_head(offers, known.spot.version, number),
        LineKind::Region(_) => put_regions(offers, known, words),
        LineKind::Policy => put_policies(offers),
        LineKind::Items => put_forms(offers, known, words, &ITEMS),
        LineKind::Ops => put_operations(offers, known, words),
        LineKind::Turns => put_forms(offers, known, words, &TURNS),
    }
}

/// Appends the operations of the text's version.
fn put_operations(
    offers: &mut Vec<Offer>,
    known: &Known,
    words: &[&[u8]],
) -> Result<(), AllocError> {
    put_forms(offers, known, words, &PLAIN)?;
    match known.spot.version {
        Version::One if !known.spot.structures => Ok(()),
        Version::One => put_forms(offers, known, words, &STRUCTURED),
        Version::Two => put_forms(offers, known, words, &PLACED),
    }
}

/// Appends the forms of the header's line of this number.
fn put_head(offers: &mut Vec<Offer>, version: Version, number: usize) -> Result<(), AllocError> {
    match (number, version) {
        (1, _) => put_lines(offers, &["stm 1", "stm 2"]),
        (9, _) => put_lines(offers, &ALGORITHMS),
        (10, Version::One) => put_lines(offers, &["structs off", "structs on"]),
        _ => {
            let (form, low, high) = sized(version, number);
            put_numbered(offers, form, low, high)
        }
    }
}

/// The header's line of this number that gives a number, and from where to where that may be.
fn sized(version: Version, number: usize) -> (&'static str, u64, u64) {
    match number {
        2 => ("words N", 1, most_words(version)),
        3 => ("callers N", 1, MAX_CALLERS as u64),
        4 => ("records N", 1, MAX_RECORDS as u64),
        5 => ("ring N", MIN_RING as u64, MAX_RING as u64),
        6 => ("reads N", 1, MAX_LOG as u64),
        7 => ("writes N", 1, MAX_LOG as u64),
        8 => ("clock N", 0, CLOCK_LIMIT),
        _ => ("regions N", 0, MAX_REGIONS as u64),
    }
}

fn most_words(version: Version) -> u64 {
    match version {
        Version::One => MAX_WORDS_ONE as u64,
        Version::Two => MAX_WORDS as u64,
    }
}

fn put_lines(offers: &mut Vec<Offer>, forms: &[&'static str]) -> Result<(), AllocError> {
    let alloc = *offers.allocator();
    for form in forms {
        offers.push(Offer::line(alloc, form)?)?;
    }
    Ok(())
}

/// Appends a line of a name and a number.
fn put_numbered(
    offers: &mut Vec<Offer>,
    form: &'static str,
    low: u64,
    high: u64,
) -> Result<(), AllocError> {
    let alloc = *offers.allocator();
    let numbers = Span {
        first: (low, high),
        last: (low, high),
    };
    let letter = Letter {
        label: "N",
        values: Values::Numbers(numbers),
    };
    offers.push(offer_of(alloc, form, &[letter])?)?;
    Ok(())
}

/// Appends the regions that have room, at the address that the line has, or from the first free word on.
fn put_regions(offers: &mut Vec<Offer>, known: &Known, words: &[&[u8]]) -> Result<(), AllocError> {
    let own = match words.get(2) {
        Some(word) => lines::number(word),
        None => None,
    };
    for kind in kinds() {
        if let Some((at, most)) = room_for(known, kind, own) {
            offers.push(region(*offers.allocator(), kind, at, most)?)?;
        }
    }
    Ok(())
}

/// Where a structure has room, and its greatest size there: at this address, or from the first free word on.
fn room_for(known: &Known, kind: Kind, own: Option<u64>) -> Option<(u64, u64)> {
    let free = known.free();
    let at = own.unwrap_or(free);
    match most_of(known, kind, at) {
        Some(most) => Some((at, most)),
        None => match most_of(known, kind, free) {
            Some(most) => Some((free, most)),
            None => None,
        },
    }
}

/// The greatest size of a structure that begins at this word.
fn most_of(known: &Known, kind: Kind, at: u64) -> Option<u64> {
    if at < known.free() {
        return None;
    }
    let room = known.spot.words.checked_sub(at)?.checked_sub(kind.fixed)?;
    let most = room.checked_div(kind.each)?.min(kind.most);
    if most == 0 { None } else { Some(most) }
}

fn region(alloc: Global, kind: Kind, at: u64, most: u64) -> Result<Offer, AllocError> {
    let name = kind.name;
    let form = format!(in alloc; "`region {name} {at} SIZE`, SIZE from 1 to {most}")?;
    let head = format!(in alloc; "region {name} {at} ")?;
    Offer::up_to(form, head.as_str(), most)
}

fn put_policies(offers: &mut Vec<Offer>) -> Result<(), AllocError> {
    put_lines(offers, &["policy fixed", "policy expert"])?;
    put_policy(offers, "policy round:", MOST_ROUND)?;
    put_policy(offers, "policy state:", MOST_STATE)
}

fn put_policy(offers: &mut Vec<Offer>, head: &str, most: u32) -> Result<(), AllocError> {
    let form = format!(in *offers.allocator(); "`{head}N`, N from 1 to {most}")?;
    offers.push(Offer::up_to(form, head, u64::from(most))?)?;
    Ok(())
}

/// Appends those forms of which each letter can stand for something.
fn put_forms(
    offers: &mut Vec<Offer>,
    known: &Known,
    words: &[&[u8]],
    forms: &[&'static str],
) -> Result<(), AllocError> {
    let alloc = *offers.allocator();
    for form in forms {
        if let Some(letters) = letters_of(alloc, known, words, form)? {
            offers.push(offer_of(alloc, form, letters.as_slice())?)?;
        }
    }
    Ok(())
}
