//! Numbers written as words.
ghost use Rattle.std.specs.Prelude.{◌≡◌, ◌≢◌, ◌<◌, ◌^◌, ℕ, MatchOption};
ghost use Rattle.std.specs.Fmt.{decimal};
ghost use Rattle.work_profile.specs.PolicyWords.{IsUpTo};

/// The number that a word is: decimal, without sign and leading zeros, below 2^64.
pub fn number(word: &str) -> Option<u64>
    ensures { MatchOption result ((n : ℕ) → n < 2 ^ 64 → word.now ≢ decimal n) (λ n.
        word.now ≡ decimal n) }
{
    if word.starts_with('+') {
        return None;
    }
    if word.starts_with('0') {
        return if word.len() == 1 { Some(0) } else { None };
    }
    match word.parse() {
        Ok(n) => Some(n),
        Err(_) => None,
    }
}

/// The number that a word is, from 1 to `most`.
pub fn number_up_to(most: u32, word: &str) -> Option<u32>
    ensures { MatchOption result ((n : ℕ) → IsUpTo most n → word.now ≢ decimal n) (λ n.
        IsUpTo most n × (word.now ≡ decimal n)) }
{
    let n = number(word)?;
    if n < 1 || u64::from(most) < n {
        return None;
    }
    Some(n as u32)
}
