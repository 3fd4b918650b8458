//! The fault of a workload's text.
ghost use Rattle.std.specs.Prelude.{◌≤◌, ℕ, All, IfOk, take, string_len};
ghost use Rattle.work_faults.specs.Standing.{IsOffered};
ghost use Rattle.work_faults.specs.declared.place.Reader.TheVariants.{Workload as OfWorkload};

use crate::at::At;
use crate::cause::{Cause, Limit, LineFault, RegionFault, WordFault, wrong_byte, wrong_count};
use crate::fault::Fault;
use crate::line::FaultyLine;
use crate::offer::likest;
use crate::place::{Place, Reader, Tried};
use crate::sentence::too_long;
use std::alloc::{AllocError, Global};
use stm_model::memory::Memory;
use work_check::words::first_word;
use work_forms::form::{candidates, is_structured};
use work_forms::known::{Known, extent_of};
use work_forms::letters::kind_for;
use work_forms::offer::Offer;
use work_forms::shown::first_line;
use work_forms::spot::{LineKind, spot_of};
use work_forms::words::{exchanged, is_spaced, words_of};
use work_script::workload::Version;
use work_text::lines;
use work_text::parse::{MAX_TEXT, Mode};

/// What is wrong with a text for `run` or for `step` that `parse` refuses with this line and this fault, in a sentence:
/// the line, what stands on it, why that is wrong, and what may stand there.
///
/// # Errors
/// Memory, where it is refused.
pub fn workload_fault(
    alloc: Global,
    mode: Mode,
    text: &[u8],
    line: usize,
    fault: Fault,
) -> Result<String, Memory>
    ensures { IfOk result (λ s. string_len s ≤ 200) }
{
    if let Fault::Long = fault {
        return Ok(too_long(alloc, "text", MAX_TEXT, "a workload")?);
    }
    Ok(fault_of(alloc, mode, text, line, fault)?.sentence(alloc)?)
}

/// The fault of a text that `parse` refuses with this line and this fault, but for one that is too long.
///
/// # Errors
/// Memory, where it is refused.
pub fn fault_of<'a>(
    alloc: Global,
    mode: Mode,
    text: &'a [u8],
    line: usize,
    fault: Fault,
) -> Result<FaultyLine<'a>, Memory>
    ensures { IfOk result (λ f.
        (n : ℕ) × All (IsOffered (OfWorkload mode) (take n text.now) line) f.offers.items) }
{
    let (spot, rest) = spot_of(text, line);
    let bytes = first_line(rest);
    let start = text.len().saturating_sub(rest.len());
    let place = Place {
        alloc,
        reader: Reader::Workload(mode),
        above: &text[..start],
        line,
    };
    let words = words_of(alloc, bytes)?;
    let known = Known::of(alloc, text, spot)?;
    let offers = offers_at(&place, &known, words.as_slice(), fault)?;
    let stands = Stands {
        known: &known,
        bytes,
        words: words.as_slice(),
        is_there: !rest.is_empty(),
    };
    let (cause, word) = cause_of(&place, &stands, offers.as_slice(), fault)?;
    Ok(FaultyLine {
        at: At::line(line),
        bytes: if rest.is_empty() { None } else { Some(bytes) },
        word,
        cause,
        offers,
        nothing: match fault {
            Fault::Extra => "the end of the text",
            _ => "no line: those above leave no room",
        },
    })
}

/// What may stand at a place; nothing after the text's last line.
fn offers_at(
    place: &Place,
    known: &Known,
    words: &[&[u8]],
    fault: Fault,
) -> Result<Vec<Offer>, Memory>
    ensures { IfOk result (λ o.
        All (IsOffered place.now.reader place.now.above.now place.now.line) o.items) }
{
    if let Fault::Extra = fault {
        return Ok(Vec::new(place.alloc));
    }
    let fitting = candidates(place.alloc, known, words)?;
    likest(place, fitting, words)
}

/// What stands on a line, and above it.
#[derive(Clone, Copy, Drop)]
struct Stands<'a, 'b> {
    known: &'b Known,
    bytes: &'a [u8],
    words: &'b [&'a [u8]],
    /// Whether the text goes on to that line.
    is_there: bool,
}

/// Why a line is at fault, and which of its words is.
fn cause_of<'a>(
    place: &Place,
    stands: &Stands<'a, '_>,
    offers: &[Offer],
    fault: Fault,
) -> Result<(Cause<'a>, usize), Memory> {
    if let Some(cause) = whole_line(stands, fault) {
        return Ok((cause, 0));
    }
    if let Fault::Word = fault {
        return Ok(wrong_words(place, stands, offers));
    }
    wrong_operand(place, stands, offers, fault)
}

/// Why a line is at fault as a whole.
fn whole_line<'a>(stands: &Stands<'a, '_>, fault: Fault) -> Option<Cause<'a>> {
    if !stands.is_there {
        return Some(Cause::Line(LineFault::NoDone));
    }
    match fault {
        Fault::Bytes => Some(bad_byte(stands.bytes)),
        Fault::Unended => Some(Cause::Line(LineFault::NoLf)),
        Fault::Extra => Some(Cause::Line(LineFault::AfterDone)),
        Fault::Order => Some(Cause::Line(LineFault::NoIrrev)),
        Fault::Many => Some(Cause::Full(limit_at(stands.known.spot.place))),
        _ => None,
    }
}

fn bad_byte<'a>(bytes: &[u8]) -> Cause<'a> {
    match wrong_byte(bytes) {
        Some((at, byte)) => Cause::WrongByte { at, byte },
        None => Cause::Line(LineFault::Empty),
    }
}

fn limit_at(place: LineKind) -> Limit {
    match place {
        LineKind::Ops => Limit::Ops,
        LineKind::Turns => Limit::Turns,
        _ => Limit::Items,
    }
}

/// Which word of a line is wrong, or how many it has.
fn wrong_words<'a>(place: &Place, stands: &Stands<'a, '_>, offers: &[Offer]) -> (Cause<'a>, usize) {
    let words = stands.words;
    let (Some(first), false) = (words.first(), stands.bytes.is_empty()) else {
        return (Cause::Line(LineFault::Empty), 0);
    };
    if !is_spaced(words) {
        return (Cause::Line(LineFault::Spaces), 0);
    }
    if is_schedule(place, stands, first) {
        return (Cause::Line(LineFault::NoSchedule), 0);
    }
    match length_of(offers, first) {
        Some(count) => wrong_count(words, count),
        None => (Cause::word(first, WordFault::NoForm), 0),
    }
}

/// Whether a line is the schedule that `run` doesn't take.
fn is_schedule(place: &Place, stands: &Stands, first: &[u8]) -> bool {
    matches!(place.reader, Reader::Workload(Mode::Run))
        && matches!(stands.known.spot.place, LineKind::Items)
        && stands.words.len() == 1
        && lines::is(first, b"schedule")
}

/// How many words the forms have that begin with this one.
fn length_of(offers: &[Offer], word: &[u8]) -> Option<usize> {
    for offer in offers {
        let (first, rest) = first_word(offer.low.as_bytes());
        if lines::is(first, word) {
            let spaces = rest.iter().filter(|byte| **byte == b' ').count();
            return Some(spaces.saturating_add(1));
        }
    }
    None
}

/// Which operand of a line gives it this fault, found by trying each alone in a line that may stand there.
fn wrong_operand<'a>(
    place: &Place,
    stands: &Stands<'a, '_>,
    offers: &[Offer],
    fault: Fault,
) -> Result<(Cause<'a>, usize), Memory> {
    for offer in offers {
        if let Some((i, word)) = blamed(place, offer, stands.words, fault)? {
            return Ok((cause_by(stands, word, i, fault), i));
        }
    }
    Ok((cause_without(stands, fault), 1))
}

/// The first word of a line, and its number, that alone gives an offered line this fault; none where the forms differ.
fn blamed<'a>(
    place: &Place,
    offer: &Offer,
    words: &[&'a [u8]],
    fault: Fault,
) -> Result<Option<(usize, &'a [u8])>, Memory> {
    let own = words_of(place.alloc, offer.low.as_bytes())?;
    if own.len() != words.len() || offer.alike == 0 {
        return Ok(None);
    }
    for (i, word) in words.iter().enumerate().skip(1) {
        if is_blamed(place, own.as_slice(), i, word, fault)? {
            return Ok(Some((i, *word)));
        }
    }
    Ok(None)
}

/// Whether a line has this fault once this is its word of this number.
fn is_blamed(
    place: &Place,
    own: &[&[u8]],
    number: usize,
    word: &[u8],
    fault: Fault,
) -> Result<bool, Memory> {
    let line = exchanged(place.alloc, own, number, word)?;
    match place.tried(line.as_str())? {
        Tried::Taken => Ok(false),
        Tried::Refused(found) => Ok(found == fault),
    }
}

/// Why this word gives its line this fault.
fn cause_by<'a>(stands: &Stands<'a, '_>, word: &'a [u8], number: usize, fault: Fault) -> Cause<'a> {
    match fault {
        Fault::Number => Cause::word(word, WordFault::NoNumber),
        Fault::Range => Cause::word(word, WordFault::OutOfRange),
        Fault::Alg => Cause::word(word, WordFault::NoAlgorithm),
        _ => match stands.known.spot.place {
            LineKind::Ops => misplaced(stands, word, number),
            _ => cause_without(stands, fault),
        },
    }
}

/// Why an operation's word gives it the fault of the regions.
fn misplaced<'a>(stands: &Stands<'a, '_>, word: &'a [u8], number: usize) -> Cause<'a> {
    match (stands.words.first(), lines::number(word)) {
        (Some(first), Some(region)) if number == 1 && is_structured(first) => {
            other_region(stands, word, region)
        }
        _ => Cause::word(word, WordFault::InStructure),
    }
}

/// The region that an operation names, which is none of its structure.
fn other_region<'a>(stands: &Stands<'a, '_>, word: &'a [u8], region: u64) -> Cause<'a> {
    match stands.known.region(region) {
        Some(region) => Cause::Region(RegionFault::Other {
            word,
            kind: region.kind,
            line: region.line,
        }),
        None => Cause::word(word, WordFault::OutOfRange),
    }
}

/// Why a line has this fault, where no word of it alone has.
fn cause_without<'a>(stands: &Stands<'a, '_>, fault: Fault) -> Cause<'a> {
    match (stands.known.spot.place, fault) {
        (LineKind::Ops, _) => operation_without(stands, fault),
        (LineKind::Head(_), Fault::Region) => Cause::Region(RegionFault::FewWords {
            words: stands.known.spot.words,
        }),
        (LineKind::Region(_), Fault::Region) => Cause::Region(out_of_place(stands)),
        _ => first_wrong(stands.words, fault),
    }
}

/// Why a region has no room where it is.
fn out_of_place<'a>(stands: &Stands) -> RegionFault<'a> {
    let known = stands.known;
    match extent_of(stands.bytes, 0) {
        Some(region) if region.first < known.free() => RegionFault::BeginsEarly {
            first: region.first,
            free: known.free(),
        },
        _ => RegionFault::EndsLate {
            words: known.spot.words,
        },
    }
}

/// The same of an operation of which no form may stand there.
fn operation_without<'a>(stands: &Stands<'a, '_>, fault: Fault) -> Cause<'a> {
    let words = stands.words;
    let Some(first) = words.first() else {
        return Cause::Line(LineFault::Empty);
    };
    if matches!(fault, Fault::Number) || !is_structured(first) {
        return first_wrong(words, fault);
    }
    match stands.known.spot.version {
        Version::One => Cause::Line(LineFault::StructuresOff),
        Version::Two => without_region(stands, first),
    }
}

/// Why an operation on a structure has no region.
fn without_region<'a>(stands: &Stands<'a, '_>, first: &[u8]) -> Cause<'a> {
    let Some(word) = stands.words.get(1) else {
        return Cause::Line(LineFault::TooFew);
    };
    match lines::number(word) {
        Some(number) if stands.known.region(number).is_some() => other_region(stands, word, number),
        _ => Cause::Region(RegionFault::Missing {
            kind: kind_for(first),
        }),
    }
}

/// The first word after the line's first one that isn't a number, or else the second word.
fn first_wrong<'a>(words: &[&'a [u8]], fault: Fault) -> Cause<'a> {
    if let Fault::Number = fault {
        for word in words.iter().skip(1) {
            if lines::number(word).is_none() {
                return Cause::word(word, WordFault::NoNumber);
            }
        }
    }
    match words.get(1) {
        Some(word) => Cause::word(word, WordFault::OutOfRange),
        None => Cause::Line(LineFault::TooFew),
    }
}
