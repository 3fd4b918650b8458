//! Words as a box shows them.
ghost use Rattle.std.specs.Prelude.{◌≡◌, ◌≤◌, ◌<◌, ◌+◌, ◌^◌, ◌++◌, codes, length, IfOk, OnOk, string_bytes};
ghost use Rattle.draw_pictures.specs.Shown.{digits_at, next_before, shown, shown_byte, shown_words, title_bytes};

use crate::style::TIP;
use std::alloc::{AllocError, Global};

/// The most bytes of words that a box shows, before what says that they are cut.
pub const MOST_SHOWN: usize = 36;

fn is_digit(b: u8) -> bool
    ensures { result ≡ Rattle.draw_pictures.specs.Shown.is_digit b }
{
    48 <= b && b <= 57
}

/// How many digits a text begins with.
fn digits_at(bytes: &[u8]) -> usize
    ensures is { result ≡ digits_at bytes.now }
    ensures within { result ≤ length bytes.now }
{
    for (i, b) in bytes.iter().enumerate() {
        if !is_digit(*b) {
            return i;
        }
    }
    bytes.len()
}

/// Appends what is shown of a byte, which has so many digits of its number before it, and so many after it.
#[tactic(auto, unfolding(crate::specs::Shown::shown_byte))]
fn put_byte(text: &mut String, before: usize, after: usize, b: u8) -> Result<usize, AllocError>
    requires { before + after < 2 ^ 64 }
    ensures bytes { OnOk result (string_bytes text.new ≡ string_bytes text.old ++ shown_byte before after b) }
    ensures count { IfOk result (λ k. k ≡ length (shown_byte before after b)) }
{
    if is_digit(b) {
        if before + after < 8 || before < 3 || after < 3 {
            text.push(b as char)?;
            return Ok(1);
        }
        if before == 3 {
            text.push_str("..")?;
            return Ok(2);
        }
        return Ok(0);
    }
    if b == 226 {
        text.push_str(TIP)?;
        return Ok(TIP.len());
    }
    if b < 128 {
        text.push(b as char)?;
        return Ok(1);
    }
    Ok(0)
}

/// How many digits of a number come before the next byte.
fn next_before(before: usize, b: u8) -> usize
    requires { before < 2 ^ 63 }
    ensures { result ≡ next_before before b }
{
    if is_digit(b) { before + 1 } else { 0 }
}

/// Appends what is shown of words.
fn put_shown(text: &mut String, words: &str) -> Result<(), AllocError>
    ensures { OnOk result (string_bytes text.new ≡ string_bytes text.old ++ shown_words words.now) }
{
    let bytes = words.as_bytes();
    let mut room = MOST_SHOWN;
    let mut before = 0;
    for (i, b) in bytes.iter().enumerate() {
        if room == 0 {
            text.push_str("..")?;
            return Ok(());
        }
        let count = put_byte(text, before, digits_at(&bytes[i + 1..]), *b)?;
        room = room.saturating_sub(count);
        before = next_before(before, *b);
    }
    Ok(())
}

/// Words as they are shown. Memory may be refused.
pub fn shown(alloc: Global, words: &str) -> Result<String, AllocError>
    ensures { IfOk result (λ t. string_bytes t ≡ shown_words words.now) }
{
    let mut text = String::new(alloc);
    put_shown(&mut text, words)?;
    Ok(text)
}

/// Appends words as they are shown, and whole in a title where not all of them are.
pub fn put_words(text: &mut String, words: &str, shown: &str) -> Result<(), AllocError>
    ensures { OnOk result (string_bytes text.new
        ≡ string_bytes text.old ++ (title_bytes words.now shown.now ++ shown.now)) }
{
    if shown != words {
        put_title(text, words)?;
    }
    text.push_str(shown)
}

fn put_title(text: &mut String, words: &str) -> Result<(), AllocError>
    ensures { OnOk result (string_bytes text.new
        ≡ string_bytes text.old ++ (codes "<title>" ++ (words.now ++ codes "</title>"))) }
{
    text.push_str("<title>")?;
    text.push_str(words)?;
    text.push_str("</title>")
}
