//! The words that name a part of a trace: `A..B` its lines, `N,N..` its callers.
ghost use Rattle.std.specs.Prelude.{◌≡◌, List, ℕ};
ghost use Rattle.draw_core.specs.Chosen.{between, callers_in, dotted, lines_in};

use draw_pictures::part::{Callers, Lines};
use work_text::lines;

/// The lines that `A..B` names: A is 1 at least, and B is A at least.
pub fn lines_in(word: &str) -> Option<Lines>
    ensures { result ≡ lines_in word.now }
{
    lines_of(word.as_bytes())
}

fn lines_of(bytes: &[u8]) -> Option<Lines>
    ensures { result ≡ lines_in bytes.now }
{
    match lines::find(b'.', bytes) {
        None => None,
        Some(dot) => dotted(&bytes[..dot], lines::past(bytes, dot)),
    }
}

/// What stands after the first dot must begin with the second.
fn dotted(first: &[u8], rest: &[u8]) -> Option<Lines>
    ensures { result ≡ dotted first.now rest.now }
{
    let dot = *rest.first()?;
    if dot != b'.' {
        return None;
    }
    between(first, lines::past(rest, 0))
}

fn between(first: &[u8], last: &[u8]) -> Option<Lines>
    ensures { result ≡ between first.now last.now }
{
    let first = lines::number(first)?;
    let last = lines::number(last)?;
    if first < 1 || last < first {
        return None;
    }
    Some(Lines {
        first: first as usize,
        last: last as usize,
    })
}

/// These callers, and the one that a word names.
fn with_word(callers: Callers, word: &[u8]) -> Option<Callers>
    ensures { result ≡ Rattle.draw_core.specs.Chosen.with_word callers word.now }
{
    let caller = lines::number(word)?;
    if 32 <= caller {
        return None;
    }
    Some(callers.with(caller as usize))
}

/// The callers that `N,N..` names, each below 32.
pub fn callers_in(word: &str) -> Option<Callers>
    ensures { result ≡ callers_in word.now }
{
    callers_of(word.as_bytes())
}

fn callers_of(bytes: &[u8]) -> Option<Callers>
    ensures { result ≡ callers_in bytes.now }
{
    let mut callers = Callers::none();
    let mut rest = bytes;
    while let Some(i) = lines::find(b',', rest) {
        let more = with_word(callers, &rest[..i])?;
        callers = more;
        rest = lines::past(rest, i);
    }
    with_word(callers, rest)
}
