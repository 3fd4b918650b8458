//! A sentence of at most so many bytes.
ghost use Rattle.std.specs.Prelude.{◌≤◌, IfOk, string_len};

use crate::at::At;
use std::alloc::{AllocError, Global};

/// The greatest number of bytes of a sentence.
pub const MOST_SAID: usize = 200;

/// At least so much of a line is shown.
const LEAST_SHOWN: usize = 16;

/// At most so much of a line is shown.
const MOST_SHOWN: usize = 60;

/// The first bytes of a text that is too long.
fn bounded(alloc: Global, said: String) -> Result<String, AllocError>
    ensures { IfOk result (λ s. string_len s ≤ 200) }
{
    if said.len() <= MOST_SAID {
        return Ok(said);
    }
    let mut cut = String::new(alloc);
    for c in said.chars() {
        if MOST_SAID < cut.len() + 4 {
            break;
        }
        cut.push(c)?;
    }
    Ok(cut)
}

/// What is said of a text that is too long.
pub(crate) fn too_long(
    alloc: Global,
    what: &str,
    most: usize,
    stands: &str,
) -> Result<String, AllocError>
    ensures { IfOk result (λ s. string_len s ≤ 200) }
{
    let said = format!(in alloc;
        "the {what} has more than {most} bytes; here stands {stands} of at most so many"
    )?;
    bounded(alloc, said)
}

/// What a sentence says of a line, but for its bytes.
#[derive(Drop)]
pub(crate) struct Parts {
    /// Where the line stands.
    pub(crate) place: String,
    pub(crate) why: String,
    /// What may stand there.
    pub(crate) may: String,
    /// Whether the line is shown also where there is little room.
    pub(crate) must_show: bool,
}

impl Parts {
    /// Where the line stands alone.
    pub(crate) fn of(alloc: Global, at: At) -> Result<Parts, AllocError> {
        let mut place = String::new(alloc);
        at.put(&mut place)?;
        Ok(Parts {
            place,
            why: String::new(alloc),
            may: String::new(alloc),
            must_show: true,
        })
    }

    /// Appends to both others.
    pub(crate) fn put(&mut self, why: &str, may: &str) -> Result<(), AllocError> {
        self.why.push_str(why)?;
        self.may.push_str(may)
    }

    /// How many bytes are left for what may stand there, and for what stands around all parts.
    pub(crate) fn room(&self, around: usize) -> usize {
        let fixed = self.place.len().saturating_add(self.why.len());
        MOST_SAID.saturating_sub(fixed).saturating_sub(around)
    }
}

/// The sentence of these parts, and of the line's bytes, of which those from `focus` on are shown first.
pub(crate) fn told(
    alloc: Global,
    parts: &Parts,
    bytes: Option<&[u8]>,
    focus: usize,
) -> Result<String, AllocError>
    ensures { IfOk result (λ s. string_len s ≤ 200) }
{
    let mut said = String::new(alloc);
    said.push_str(parts.place.as_str())?;
    if let Some(bytes) = bytes {
        put_shown(&mut said, parts, bytes, focus)?;
    }
    write!(said, ": {}; here stands {}", parts.why, parts.may)?;
    bounded(alloc, said)
}

/// Appends a line's bytes, where they are to be shown.
fn put_shown(
    said: &mut String,
    parts: &Parts,
    bytes: &[u8],
    focus: usize,
) -> Result<(), AllocError> {
    let room = parts.room(24).saturating_sub(parts.may.len());
    if room < LEAST_SHOWN && !parts.must_show {
        return Ok(());
    }
    put_line(said, bytes, focus, room.clamp(LEAST_SHOWN, MOST_SHOWN))
}

/// Appends a line's bytes, as many as there is room for.
fn put_line(said: &mut String, bytes: &[u8], focus: usize, room: usize) -> Result<(), AllocError> {
    said.push_str(", `")?;
    put_cut(said, bytes, focus, room)?;
    said.push_str("`")
}

/// How many bytes a byte takes where it is shown.
fn width(byte: u8) -> usize {
    if may_stand(byte) {
        1
    } else if byte < 10 {
        3
    } else if byte < 100 {
        4
    } else {
        5
    }
}

fn width_of(bytes: &[u8]) -> usize {
    let mut all = 0usize;
    for byte in bytes {
        all = all.saturating_add(width(*byte));
    }
    all
}

/// Appends bytes, as much as there is room for, with those from `focus` on among them; one that no line may have by its
/// number.
pub(crate) fn put_cut(
    said: &mut String,
    bytes: &[u8],
    focus: usize,
    room: usize,
) -> Result<(), AllocError> {
    if width_of(bytes) <= room {
        return put_bytes(said, bytes, room);
    }
    // a quarter of what is shown stands before the place that is looked at
    let start = focus.saturating_sub(room / 4).min(bytes.len());
    let rest = &bytes[start..];
    if start == 0 {
        put_bytes(said, rest, room.saturating_sub(3))?;
        return said.push_str(" ..");
    }
    said.push_str(".. ")?;
    if width_of(rest) <= room.saturating_sub(3) {
        return put_bytes(said, rest, room);
    }
    put_bytes(said, rest, room.saturating_sub(6))?;
    said.push_str(" ..")
}

/// Appends the first bytes, as many as there is room for.
fn put_bytes(said: &mut String, bytes: &[u8], room: usize) -> Result<(), AllocError> {
    let mut left = room;
    for byte in bytes {
        let width = width(*byte);
        if left < width {
            break;
        }
        left -= width;
        if may_stand(*byte) {
            said.push(char::from(*byte))?;
        } else {
            write!(said, "<{byte}>")?;
        }
    }
    Ok(())
}

/// Whether a byte may stand on a line.
pub(crate) fn may_stand(byte: u8) -> bool {
    32 <= byte && byte <= 126
}

/// A word, as it is shown in a sentence.
pub(crate) fn put_word(said: &mut String, word: &[u8]) -> Result<(), AllocError> {
    said.push_str("`")?;
    put_cut(said, word, 0, 20)?;
    said.push_str("`")
}
