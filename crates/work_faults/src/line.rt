//! A line at fault: where it is, what stands there, why that is wrong, and what may stand there.
ghost use Rattle.std.specs.Prelude.{◌≤◌, IfOk, string_len};

use crate::at::At;
use crate::cause::Cause;
use crate::sentence::{Parts, told};
use std::alloc::{AllocError, Global};
use work_forms::offer::Offer;
use work_forms::words::{start_of, words_of};

/// A line at fault.
#[derive(Drop)]
pub struct FaultyLine<'a> {
    pub(crate) at: At,
    /// The line, where there is one.
    pub(crate) bytes: Option<&'a [u8]>,
    /// Which of its words is at fault, from 0.
    pub(crate) word: usize,
    pub(crate) cause: Cause<'a>,
    /// What may stand there.
    pub offers: Vec<Offer>,
    /// What stands there where nothing may.
    pub(crate) nothing: &'static str,
}

impl FaultyLine<'_> {
    /// The fault in a sentence.
    ///
    /// # Errors
    /// Memory, where it is refused.
    pub fn sentence(&self, alloc: Global) -> Result<String, AllocError>
        ensures { IfOk result (λ s. string_len s ≤ 200) }
    {
        let mut parts = Parts::of(alloc, self.at)?;
        self.put(&mut parts)?;
        let focus = self.focus(alloc)?;
        told(alloc, &parts, self.bytes, focus)
    }

    /// Where in the line the word at fault begins, or its wrong byte.
    fn focus(&self, alloc: Global) -> Result<usize, AllocError> {
        if let Cause::WrongByte { at, .. } = self.cause {
            return Ok(at);
        }
        let words = words_of(alloc, self.bytes.unwrap_or(&[]))?;
        Ok(start_of(words.as_slice(), self.word))
    }

    /// Appends why the line is wrong, and what may stand there.
    fn put(&self, parts: &mut Parts) -> Result<(), AllocError> {
        self.cause.put(&mut parts.why)?;
        let room = parts.room(48);
        self.put_may(&mut parts.may, room)
    }

    /// Appends what may stand there, in so many bytes: the form that begins as the line does, where there is one, and
    /// else the names of all.
    fn put_may(&self, may: &mut String, room: usize) -> Result<(), AllocError> {
        match self.offers.as_slice() {
            [] => may.push_str(self.nothing),
            [one] => put_form(may, one, room),
            all => match likest_of(all) {
                Some(offer) => put_form(may, offer, room),
                None => put_names(may, all, room),
            },
        }
    }
}

/// Appends a form, or its name alone where there is no room for the ranges.
fn put_form(may: &mut String, offer: &Offer, room: usize) -> Result<(), AllocError> {
    if offer.form.len() <= room {
        return may.push_str(offer.form.as_str());
    }
    let name = offer.name();
    write!(may, "`{name}`")
}

/// The only one of some forms that has the line's first two words.
fn likest_of(offers: &[Offer]) -> Option<&Offer> {
    let mut found = None;
    for offer in offers {
        if 1 < offer.alike {
            if found.is_some() {
                return None;
            }
            found = Some(offer);
        }
    }
    found
}

/// Appends the names of some forms, as many as there is room for.
fn put_names(may: &mut String, offers: &[Offer], room: usize) -> Result<(), AllocError> {
    for offer in offers {
        let name = offer.name();
        if room < may.len().saturating_add(name.len()).saturating_add(7) {
            return may.push_str(" ..");
        }
        if !may.is_empty() {
            may.push_str(", ")?;
        }
        write!(may, "`{name}`")?;
    }
    Ok(())
}
