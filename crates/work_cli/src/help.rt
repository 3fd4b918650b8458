//! Words that ask for help.
ghost use Rattle.std.specs.Prelude.{◌≡◌, bytes_eq};
ghost use Rattle.work_cli.specs.Asking.{texts_of};
ghost use Rattle.work_cli.specs.Helping.{is_call, asked_alone, asked_by_two, help_of, topic_of};

/// What help is asked for.
#[derive(Clone, Copy, Drop, Debug, PartialEq, Eq)]
pub enum Topic {
    /// All commands.
    All,
    Run,
    Step,
    Gen,
    Check,
    /// The program's name and version.
    Version,
}

/// The help that words ask for, the first of them the program's name: `--help`, `-h` or `help` alone or beside a
/// command, `--version` or `-V`.
pub fn help_of(words: &[&str]) -> Option<Topic>
    ensures { result ≡ help_of (texts_of words.now) }
{
    match words {
        [_, word] => asked_alone(word),
        [_, first, second] => asked_by_two(first, second),
        _ => None,
    }
}

fn is(word: &str, name: &str) -> bool
    ensures { result ≡ bytes_eq word.now name.now }
{
    word == name
}

fn is_call(word: &str) -> bool
    ensures { result ≡ is_call word.now }
{
    is(word, "--help") || is(word, "-h")
}

/// What a word alone asks for.
fn asked_alone(word: &str) -> Option<Topic>
    ensures { result ≡ asked_alone word.now }
{
    if is_call(word) || is(word, "help") {
        return Some(Topic::All);
    }
    if is(word, "--version") || is(word, "-V") {
        return Some(Topic::Version);
    }
    None
}

/// What two words ask for.
fn asked_by_two(first: &str, second: &str) -> Option<Topic>
    ensures { result ≡ asked_by_two first.now second.now }
{
    if is_call(second) {
        return topic_of(first);
    }
    if is(first, "help") {
        return topic_of(second);
    }
    None
}

/// The command of this name.
fn topic_of(word: &str) -> Option<Topic>
    ensures { result ≡ topic_of word.now }
{
    if is(word, "run") {
        return Some(Topic::Run);
    }
    if is(word, "step") {
        return Some(Topic::Step);
    }
    if is(word, "gen") {
        return Some(Topic::Gen);
    }
    if is(word, "check") {
        return Some(Topic::Check);
    }
    None
}
