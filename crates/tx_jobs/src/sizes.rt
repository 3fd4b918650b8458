//! The sizes of a memory, where nothing asks for others.
ghost use Rattle.std.specs.Prelude.{◌≡◌, ◌≤◌, false, min};
ghost use Rattle.stm_model.specs.Configs.{IsConfig};

use stm_model::config::Config;

/// Sizes for so many words and callers: a record for each word, up to 65,536; 16 ring slots; logs of 64 items, which a
/// caller of `with_memory` makes longer for a transaction that needs it; the clock at 0; no fences. An attempt may have
/// no marks: neither a transaction nor a part makes any, since a part has a log of its own.
pub fn sizes(words: usize, callers: usize) -> Config
    requires words { (1 ≤ words) × (words ≤ 4294967296) }
    requires callers { (1 ≤ callers) × (callers ≤ 254) }
    ensures words { result.words ≡ words }
    ensures callers { result.callers ≡ callers }
    ensures records { result.records ≡ min words 65536 }
    ensures ring { result.ring ≡ 16 }
    ensures logs { (result.reads ≡ 64) × (result.writes ≡ 64) }
    ensures clock { result.clock ≡ 0 }
    ensures unfenced { result.fence ≡ false }
    ensures unmarked { result.marks ≡ 0 }
    ensures fit { IsConfig result }
{
    Config {
        words,
        records: words.min(65_536),
        ring: 16,
        callers,
        reads: 64,
        writes: 64,
        clock: 0,
        fence: false,
        marks: 0,
    }
}
