//! The words of a memory that a report tells.
ghost use Rattle.std.specs.Prelude.{◌≡◌, IfOk};
ghost use Rattle.work_script.specs.Reports.{nonzero};

use crate::report::Pairs;
use std::alloc::{AllocError, Global};
use stm_model::memory::Memory;

/// Address and value of the words that aren't 0, by ascending address. Goes over all words.
///
/// # Errors
/// Memory, where it is refused.
pub fn pairs(alloc: Global, words: &[u64]) -> Result<Pairs, Memory>
    ensures { IfOk result (λ p. p ≡ nonzero 0 words.now) }
{
    let items = nonzero_words(alloc, words)?;
    Ok(Pairs::new(items))
}

fn nonzero_words(alloc: Global, words: &[u64]) -> Result<Vec<(usize, u64)>, AllocError>
    ensures { IfOk result (λ items. items.items ≡ nonzero 0 words.now) }
{
    let mut items = Vec::new(alloc);
    for (a, word) in words.iter().enumerate() {
        if *word != 0 {
            items.push((a, *word))?;
        }
    }
    Ok(items)
}
