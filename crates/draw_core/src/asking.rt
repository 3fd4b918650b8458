//! What the words of the command line ask for: `stm_draw [--lines A..B] [--callers N,N..] [FILE [TRACE]]`, or a call
//! for help.
ghost use Rattle.std.specs.Prelude.{◌≡◌, bytes_eq, option_map};
ghost use Rattle.draw_core.specs.Asking.{ask_of, asked, help_of, is_option, is_waiting, opened, taken, texts_of};

use crate::chosen::{callers_in, lines_in};
use draw_pictures::part::{Part, WHOLE};

/// What the program says of itself.
pub const HELP: &str =
    "usage: stm_draw [--lines A..B] [--callers N,N..] [FILE [TRACE]]\n\n  --lines A..B     draws these lines of the trace alone, counted from 1\n  --callers N,N..  draws these callers alone, each from 0 to 31\n  --help           writes this\n  --version        writes the version\n\nDraws what `stm_bench step` writes, or a workload and then that, as an SVG: of FILE, or of FILE and then TRACE, or else\nof standard input. Above the lines stands what is open before them. The exit status is 7 where no box would be drawn, or\nmore than 2000 without `--lines`; docs/FORMATS.md has the others, and says what a picture shows.\nAn example: stm_draw docs/pictures/conflict.stm conflict.trace > conflict.svg\n";

/// What help is asked for.
#[derive(Clone, Copy, Drop)]
pub enum Topic {
    All,
    /// The program's name and version.
    Version,
}

/// The option whose value comes next.
#[derive(Clone, Copy, Drop)]
pub enum Waits {
    ForNone,
    ForLines,
    ForCallers,
}

impl Waits {
    /// Whether a value must come.
    pub fn is_waiting(self) -> bool
        ensures { result ≡ is_waiting self }
    {
        match self {
            Waits::ForNone => false,
            Waits::ForLines | Waits::ForCallers => true,
        }
    }
}

/// What the words that were read ask for.
#[derive(Clone, Copy, Drop)]
pub struct Ask<'a> {
    pub part: Part,
    /// The file that is read in place of standard input.
    pub first: Option<&'a str>,
    /// That which is read after it.
    pub second: Option<&'a str>,
    pub waits: Waits,
}

fn is(word: &str, name: &str) -> bool
    ensures { result ≡ bytes_eq word.now name.now }
{
    word == name
}

/// Whether a word calls for an option.
fn is_option(word: &str) -> bool
    ensures { result ≡ is_option word.now }
{
    word.starts_with("-")
}

/// The help that words ask for, the first of them the program's name.
pub fn help_of(words: &[&str]) -> Option<Topic>
    ensures { result ≡ help_of (texts_of words.now) }
{
    match words {
        [_, word] => topic_of(word),
        _ => None,
    }
}

/// What a word alone asks for.
fn topic_of(word: &str) -> Option<Topic>
    ensures { result ≡ Rattle.draw_core.specs.Asking.topic_of word.now }
{
    if is(word, "--help") || is(word, "-h") {
        return Some(Topic::All);
    }
    if is(word, "--version") || is(word, "-V") {
        return Some(Topic::Version);
    }
    None
}

impl<'a> Ask<'a> {
    /// What is asked for after one word more.
    pub fn take(self, word: &'a str) -> Option<Ask<'a>>
        ensures { option_map ask_of result ≡ taken (ask_of self.entry) word.now }
    {
        match self.waits {
            Waits::ForNone => self.open(word),
            Waits::ForLines => {
                let lines = lines_in(word)?;
                Some(Ask {
                    part: Part {
                        lines: Some(lines),
                        ..self.part
                    },
                    waits: Waits::ForNone,
                    ..self
                })
            }
            Waits::ForCallers => {
                let callers = callers_in(word)?;
                Some(Ask {
                    part: Part {
                        callers: Some(callers),
                        ..self.part
                    },
                    waits: Waits::ForNone,
                    ..self
                })
            }
        }
    }

    /// After a word that is no value.
    fn open(self, word: &'a str) -> Option<Ask<'a>>
        ensures { option_map ask_of result ≡ opened (ask_of self.entry) word.now }
    {
        if is(word, "--lines") {
            if self.part.lines.is_some() {
                return None;
            }
            return Some(Ask {
                waits: Waits::ForLines,
                ..self
            });
        }
        if is(word, "--callers") {
            if self.part.callers.is_some() {
                return None;
            }
            return Some(Ask {
                waits: Waits::ForCallers,
                ..self
            });
        }
        if is_option(word) {
            return None;
        }
        self.named(word)
    }

    /// After a file's name.
    fn named(self, word: &'a str) -> Option<Ask<'a>>
        ensures { option_map ask_of result ≡ Rattle.draw_core.specs.Asking.named (ask_of self.entry) word.now }
    {
        if self.first.is_none() {
            return Some(Ask {
                first: Some(word),
                ..self
            });
        }
        if self.second.is_none() {
            return Some(Ask {
                second: Some(word),
                ..self
            });
        }
        None
    }
}

/// What words ask for, the first of them the program's name. None where they aren't in the grammar.
pub fn asked<'a>(words: &[&'a str]) -> Option<Ask<'a>>
    ensures { option_map ask_of result ≡ asked (texts_of words.now) }
{
    if words.is_empty() {
        return None;
    }
    let mut ask = Ask {
        part: WHOLE,
        first: None,
        second: None,
        waits: Waits::ForNone,
    };
    for i in 1..words.len() {
        ask = ask.take(words[i])?;
    }
    if ask.waits.is_waiting() {
        return None;
    }
    Some(ask)
}
