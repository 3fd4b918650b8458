//! Texts that are drawn line by line, right or wrong: the parser finds what the slow reading of the grammar finds.
use crate::plain_grammar::{FORMS, LineGroup, first_fault};
use rand_core::SeedableRng;
use rand_core::utils::NextWord;
use rand_pcg::Pcg32;
use std::alloc::Global;
use std::test::Fail;
use work_text::parse::{Mode, ParseError, parse};

/// The lines of the header: those that may stand there, and after them some that may not.
const HEADER: [(usize, &[&str]); 10] = [
    (1, &["stm 1", "stm 01", "stm", "Stm 1"]),
    (2, &["words 1030", "words 8", "words 0", "words 1048577"]),
    (2, &["callers 2", "callers 3", "callers 33", "callers  2"]),
    (1, &["records 4", "records 4097", "records x"]),
    (1, &["ring 4", "ring 1", "ring 65"]),
    (1, &["reads 16", "reads 0", "reads 016"]),
    (1, &["writes 16", "writes", "writes 4097"]),
    (
        2,
        &[
            "clock 0",
            "clock 4611686018427387904",
            "clock 4611686018427387905",
        ],
    ),
    (2, &["alg TML", "alg RingSW", "alg tml"]),
    (2, &["structs on", "structs off", "structs 1"]),
];

/// The words that may stand for a letter of [`FORMS`], and after them some that may not, or not always.
const WORDS: [(u8, usize, &[&str]); 7] = [
    (b'c', 2, &["0", "1", "2", "7", "01", "-1"]),
    (b'A', 3, &["CGL", "Serial", "OrecEager", "orec", "0"]),
    (
        b'a',
        3,
        &["0", "7", "1029", "64", "8", "1023", "1048576", "a"],
    ),
    (
        b'n',
        2,
        &[
            "0",
            "18446744073709551615",
            "18446744073709551616",
            "00",
            "",
        ],
    ),
    (b's', 2, &["0", "3", "4", "+1"]),
    (b'k', 2, &["0", "4294967295", "4294967296", "1x"]),
    (b't', 2, &["1", "9", "600000", "0", "1000001", "x"]),
];

/// Whether something happens that happens once in so many times.
fn happens(draws: &mut Pcg32, times: u32) -> bool {
    draws.next_word() % times.max(1) == 0
}

/// One of those in front, and once in so many times any of all.
fn draw<'a>(draws: &mut Pcg32, front: usize, all: &[&'a str], times: u32) -> &'a str {
    let count = if happens(draws, times) {
        all.len()
    } else {
        front
    };
    let at = draws.next_word() as usize % count.max(1);
    all.get(at).copied().unwrap_or("")
}

/// Writes an operand that this letter stands for, and now and then no space before it or two.
fn put_operand(draws: &mut Pcg32, kind: u8, text: &mut String) -> Result<(), Fail> {
    for (letter, front, all) in WORDS {
        if letter == kind {
            let space = draw(draws, 1, &[" ", "", "  "], 40);
            text.push_str(space)?;
            text.push_str(draw(draws, front, all, 8))?;
        }
    }
    Ok(())
}

/// Writes a line that may stand at this place, now and then any line; and answers the place after it. A line that ends
/// the items is rarer, so that most texts have many.
fn put_line(
    alloc: Global,
    draws: &mut Pcg32,
    place: LineGroup,
    text: &mut String,
) -> Result<LineGroup, Fail> {
    let anywhere = happens(draws, 30);
    let mut forms = Vec::new(alloc);
    for (there, name, _, kinds) in FORMS {
        let is_rare = *name == "schedule" || *name == "done";
        if (anywhere || *there == place) && (!is_rare || happens(draws, 4)) {
            forms.push((*name, *kinds))?;
        }
    }
    let at = draws.next_word() as usize % forms.len().max(1);
    let (name, kinds) = forms.get(at).copied().unwrap_or(("", ""));
    text.push_str(name)?;
    for kind in kinds.bytes() {
        put_operand(draws, kind, text)?;
    }
    text.push_str(draw(draws, 1, &["\n", "", " \n", "\t\n", "\n\n"], 60))?;
    Ok(behind(place, name))
}

/// The place after a line of this name.
fn behind(place: LineGroup, name: &str) -> LineGroup {
    match (place, name) {
        (LineGroup::Items, "tx") => LineGroup::Script,
        (LineGroup::Script, "end") => LineGroup::Items,
        (LineGroup::Items, "schedule") => LineGroup::Schedule,
        (LineGroup::Items, "done") | (LineGroup::Schedule, "done") => LineGroup::End,
        _ => place,
    }
}

/// A text of some forty lines at most.
fn random_text(alloc: Global, draws: &mut Pcg32) -> Result<String, Fail> {
    let mut text = String::new(alloc);
    for (front, all) in HEADER {
        text.push_str(draw(draws, front, all, 60))?;
        text.push_str("\n")?;
    }
    let mut place = LineGroup::Items;
    for _ in 0..30 {
        if place != LineGroup::End || happens(draws, 20) {
            place = put_line(alloc, draws, place, &mut text)?;
        }
    }
    Ok(text)
}

/// The first fault that the parser finds.
fn parsed_fault(alloc: Global, text: &[u8]) -> Result<Option<(usize, u32)>, Fail> {
    match parse(alloc, text, Mode::Step) {
        Ok(_) => Ok(None),
        Err(ParseError::Fault { line, code }) => Ok(Some((line, code))),
        Err(ParseError::Memory) => Err(Fail::new("no memory")),
    }
}

/// How many texts are tried.
const TEXTS: usize = 4000;

#[test]
fn a_random_text_has_its_first_fault(rt: HostRuntime) -> Result<(), Fail> {
    let mut draws = Pcg32::seed_from_u64(1);
    let mut counts = [0usize; 12];
    for _ in 0..TEXTS {
        let text = random_text(rt.alloc(), &mut draws)?;
        let fault = first_fault(rt.alloc(), text.as_bytes(), true)?;
        let found = parsed_fault(rt.alloc(), text.as_bytes())?;
        assert_eq!(rt; (text.as_str(), found), (text.as_str(), fault));
        let code = match fault {
            Some((_, code)) => code,
            None => 0,
        };
        if let Some(count) = counts.get_mut(code as usize) {
            *count = count.saturating_add(1);
        }
    }
    // no text is too long, and each other code comes, and texts without a fault
    for (code, count) in counts.iter().enumerate() {
        assert_eq!(rt; (code, counts, *count > 0), (code, counts, code != 1));
    }
    Ok(())
}
