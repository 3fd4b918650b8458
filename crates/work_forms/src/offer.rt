//! What is offered in the place of a line.
use std::alloc::{AllocError, Global};

/// A form of a line, with its least and its greatest numbers.
#[derive(Drop)]
pub struct Offer {
    /// How the form is called among others, where that isn't its line with the least numbers.
    pub name: Option<&'static str>,
    /// The form, and what its letters stand for.
    pub form: String,
    /// The line with the least numbers.
    pub low: String,
    /// The line with the greatest numbers.
    pub high: String,
    /// How many words it begins with that the line in whose place it is offered begins with.
    pub alike: usize,
    /// How many edits lead from its first word to that line's.
    pub apart: usize,
}

impl Offer {
    /// One line, which has no letters.
    pub fn line(alloc: Global, line: &'static str) -> Result<Offer, AllocError> {
        let form = format!(in alloc; "`{line}`")?;
        let low = line.to_string(alloc)?;
        let high = line.to_string(alloc)?;
        Ok(Offer::unnamed(form, low, high))
    }

    /// A line that ends in a number from 1 up to one.
    pub(crate) fn up_to(form: String, head: &str, most: u64) -> Result<Offer, AllocError> {
        let alloc = *form.allocator();
        let low = format!(in alloc; "{head}1")?;
        let high = format!(in alloc; "{head}{most}")?;
        Ok(Offer::unnamed(form, low, high))
    }

    /// A form that is called as its line with the least numbers.
    pub fn unnamed(form: String, low: String, high: String) -> Offer {
        Offer {
            name: None,
            form,
            low,
            high,
            alike: 0,
            apart: 0,
        }
    }

    pub fn name(&self) -> &str {
        match self.name {
            Some(name) => name,
            None => self.low.as_str(),
        }
    }
}
