//! What the letters of a form stand for.
use crate::known::{Known, Range, Span};
use crate::offer::Offer;
use crate::words::words_of;
use std::alloc::{AllocError, Global};
use stm_model::config::MAX_LOG;
use work_script::workload::{MAX_KEY, MAX_TURNS, STRIPES, Version};
use work_text::lines;

/// A letter of a form, as its range is told by it; of two alike the second has no label.
#[derive(Clone, Copy, Drop)]
pub(crate) struct Letter {
    pub(crate) label: &'static str,
    pub(crate) values: Values,
}

/// What may stand in a letter's place.
#[derive(Clone, Copy, Drop)]
pub(crate) enum Values {
    Numbers(Span),
    Algorithms,
}

impl Letter {
    /// Appends what the letter stands for.
    fn put(&self, said: &mut String) -> Result<(), AllocError> {
        match self.values {
            Values::Algorithms => said.push_str(
                ", ALG one of CGL, TML, OrecLazy, OrecEager, RingSW, Serial",
            ),
            Values::Numbers(_) if self.label.is_empty() => Ok(()),
            Values::Numbers(span) => {
                said.push_str(", ")?;
                said.push_str(self.label)?;
                span.put(said)
            }
        }
    }

    /// Appends the first of what it stands for.
    fn put_first(&self, line: &mut String) -> Result<(), AllocError> {
        match self.values {
            Values::Numbers(span) => write!(line, " {}", span.first.0),
            Values::Algorithms => line.push_str(" CGL"),
        }
    }

    /// Appends the last of it.
    fn put_last(&self, line: &mut String) -> Result<(), AllocError> {
        match self.values {
            Values::Numbers(span) => write!(line, " {}", span.last.1),
            Values::Algorithms => line.push_str(" Serial"),
        }
    }
}

impl Span {
    /// Appends the first and the last of the ranges.
    fn put(&self, said: &mut String) -> Result<(), AllocError> {
        if self.last.1 == u64::MAX {
            return said.push_str(" below 2^64");
        }
        said.push_str(" ")?;
        put_range(said, self.first)?;
        if self.first.0 == self.last.0 {
            return Ok(());
        }
        said.push_str(" or ")?;
        put_range(said, self.last)
    }
}

fn put_range(said: &mut String, range: Range) -> Result<(), AllocError> {
    if range.0 == range.1 {
        write!(said, "{}", range.0)
    } else {
        write!(said, "from {} to {}", range.0, range.1)
    }
}

/// A form with what its letters stand for.
pub(crate) fn offer_of(
    alloc: Global,
    form: &'static str,
    letters: &[Letter],
) -> Result<Offer, AllocError> {
    Ok(Offer {
        name: Some(form),
        form: told_form(alloc, form, letters)?,
        low: lowest(alloc, form, letters)?,
        high: greatest(alloc, form, letters)?,
        alike: 0,
        apart: 0,
    })
}

/// The line with the least numbers.
fn lowest(alloc: Global, form: &str, letters: &[Letter]) -> Result<String, AllocError> {
    let mut line = begun(alloc, form)?;
    for letter in letters {
        letter.put_first(&mut line)?;
    }
    Ok(line)
}

/// The line with the greatest numbers.
fn greatest(alloc: Global, form: &str, letters: &[Letter]) -> Result<String, AllocError> {
    let mut line = begun(alloc, form)?;
    for letter in letters {
        letter.put_last(&mut line)?;
    }
    Ok(line)
}

fn told_form(alloc: Global, form: &str, letters: &[Letter]) -> Result<String, AllocError> {
    let mut told = format!(in alloc; "`{form}`")?;
    for letter in letters {
        letter.put(&mut told)?;
    }
    Ok(told)
}

/// A form up to its first letter.
fn begun(alloc: Global, form: &str) -> Result<String, AllocError> {
    let mut line = String::new(alloc);
    for c in form.chars() {
        if c == ' ' {
            break;
        }
        line.push(c)?;
    }
    Ok(line)
}

/// The letters of a form; none where one of them can stand for nothing.
/// These are the words of the line that stands there.
pub(crate) fn letters_of(
    alloc: Global,
    known: &Known,
    words: &[&[u8]],
    form: &str,
) -> Result<Option<Vec<Letter>>, AllocError> {
    let parts = words_of(alloc, form.as_bytes())?;
    let mut letters = Vec::new(alloc);
    if put_letters(&mut letters, known, words, form, parts.as_slice())? {
        Ok(Some(letters))
    } else {
        Ok(None)
    }
}

/// Appends the letters of a form that has these parts; and returns whether each can stand for something.
fn put_letters(
    letters: &mut Vec<Letter>,
    known: &Known,
    words: &[&[u8]],
    form: &str,
    parts: &[&[u8]],
) -> Result<bool, AllocError> {
    let Some((first, others)) = parts.split_first() else {
        return Ok(false);
    };
    for letter in others {
        let Some(values) = values_of(known, words, first, letter) else {
            return Ok(false);
        };
        let label = label_of(form, letter);
        letters.push(Letter { label, values })?;
    }
    Ok(true)
}

/// By what a letter's range is told.
fn label_of(form: &str, letter: &[u8]) -> &'static str {
    match letter {
        b"A" => { if form == "move A B V" { "A and B" } else { "A" } }
        b"K" => { if form == "msum R K L" { "K and L" } else { "K" } }
        b"X" => "X and Y",
        b"V" => "V",
        b"R" => "R",
        b"S" => "S",
        b"C" => "C",
        b"N" => "N",
        _ => "",
    }
}

/// What a letter of an operation may stand for; `word` is the operation's own.
fn values_of(known: &Known, words: &[&[u8]], word: &[u8], letter: &[u8]) -> Option<Values> {
    if lines::is(letter, b"ALG") {
        return Some(Values::Algorithms);
    }
    Some(Values::Numbers(span_of(known, words, word, letter)?))
}

fn span_of(known: &Known, words: &[&[u8]], word: &[u8], letter: &[u8]) -> Option<Span> {
    let spot = &known.spot;
    match letter {
        b"A" | b"B" => known.plain,
        b"V" => Span::within(0, u64::MAX),
        b"K" | b"L" => Span::within(0, MAX_KEY),
        b"X" | b"Y" => Span::within(1, MAX_LOG as u64),
        b"C" => Span::with(None, 0, spot.callers),
        b"N" => Span::within(1, MAX_TURNS.saturating_sub(spot.turns)),
        b"S" => match spot.version {
            Version::One => Span::with(None, 0, STRIPES as u64),
            Version::Two => Span::with(None, 0, counter_of(known, words)?.1),
        },
        _ => regions_for(known, words, word),
    }
}

/// The counter that the second word of a line names, or else the first one: its number, and how many stripes it has.
fn counter_of(known: &Known, words: &[&[u8]]) -> Option<(u64, u64)> {
    let named = match words.get(1) {
        Some(word) => lines::number(word),
        None => None,
    };
    let mut first = None;
    for (number, region) in known.regions.iter().enumerate() {
        let number = number as u64;
        if region.kind != "counter" {
            continue;
        }
        if named == Some(number) {
            return Some((number, region.size));
        }
        first = first.or(Some((number, region.size)));
    }
    first
}

/// The regions that an operation works on.
fn regions_for(known: &Known, words: &[&[u8]], word: &[u8]) -> Option<Span> {
    if lines::is(word, b"count") {
        let (number, _) = counter_of(known, words)?;
        return Span::within(number, number);
    }
    let kind = kind_for(word);
    let mut span = None;
    for (number, region) in known.regions.iter().enumerate() {
        if region.kind == kind {
            let number = number as u64;
            span = Span::with(span, number, number.saturating_add(1));
        }
    }
    span
}

/// The structure that an operation works on.
pub fn kind_for(word: &[u8]) -> &'static str {
    if lines::is(word, b"count") || lines::is(word, b"total") {
        return "counter";
    }
    match word.first() {
        Some(b'l') => "list",
        Some(b'h') => "hash",
        Some(b't') => "tree",
        Some(b'q') => "queue",
        _ => "summap",
    }
}
