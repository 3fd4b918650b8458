//! What is wrong, beside a status.
use work_check::checking::Part;

/// What is wrong, in a sentence, and in which source: that of the text that is read first, or of a report of its own.
#[derive(Drop, Debug)]
pub struct Why {
    pub part: Part,
    pub sentence: String,
}

impl Why {
    /// Where memory for the sentence was there.
    pub(crate) fn of(part: Part, sentence: Option<String>) -> Option<Why> {
        match sentence {
            Some(sentence) => Some(Why { part, sentence }),
            None => None,
        }
    }
}
