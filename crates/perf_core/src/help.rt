//! Words that ask for help, and the help.
ghost use Rattle.std.specs.Prelude.{◌≡◌, bytes_eq};
ghost use Rattle.perf_core.specs.Helping.{help_of, texts_of, topic_of};

/// What help is asked for.
#[derive(Clone, Copy, Drop, Debug, PartialEq, Eq)]
pub enum Topic {
    All,
    /// The program's name and version.
    Version,
}

/// The help that words ask for, the first of them the program's name.
pub fn help_of(words: &[&str]) -> Option<Topic>
    ensures { result ≡ help_of (texts_of words.now) }
{
    match words {
        [_, word] => topic_of(word),
        _ => None,
    }
}

fn is(word: &str, name: &str) -> bool
    ensures { result ≡ bytes_eq word.now name.now }
{
    word == name
}

/// What a word alone asks for.
fn topic_of(word: &str) -> Option<Topic>
    ensures { result ≡ topic_of word.now }
{
    if is(word, "--help") || is(word, "-h") {
        return Some(Topic::All);
    }
    if is(word, "--version") || is(word, "-V") {
        return Some(Topic::Version);
    }
    None
}

impl Topic {
    /// What the program says of itself.
    pub fn text(self) -> &'static str {
        match self {
            Topic::All =>
                "usage: stm_perf WORKLOAD ALGORITHM THREADS COUNT SEED [READS] [words N] [switches N] [conflicts] [--time]\n\n  WORKLOAD   bank, hash, list, count, sum or scan\n  ALGORITHM  CGL, TML, OrecLazy, OrecEager, RingSW or Serial\n  THREADS    1 to 254\n  COUNT      the transactions of all threads together, 1 to 4294967295\n  SEED       of the drawing, 0 to 18446744073709551615\n  READS      the length of the read log, 1 to 1048576, else 2048; of scan what a scan reads\n  words      the memory has N words, 1040 to 4294967296, else 1040; of scan 1000000\n  switches   the first caller installs the algorithm N times while the others work\n  conflicts  names the words that conflict most\n  --time     tells how long they took, and how many a second that makes\n  --help     writes this\n  --version  writes the version\n\nRuns so many transactions, and writes what they came to. The exit status is 0 where the\nmemory is what they leave, 7 where it isn't, 1 for other words, 4 where standard output failed, and 5 where memory was\nrefused.\nAn example: stm_perf bank OrecLazy 4 1000000 1",
            Topic::Version => "stm_perf 1.0.0",
        }
    }
}
