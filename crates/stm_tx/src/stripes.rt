//! For which words a caller sleeps or rings: by its logs, and where it has no such log, for each word.
ghost use Rattle.std.specs.Int.{bit_at};
ghost use Rattle.std.specs.Prelude.{◌≡◌, ℕ, true, ◌/◌, ◌%◌, slice_index};
ghost use Rattle.rule_base.specs.Bridge.{addresses};
ghost use Rattle.rule_base.specs.History.{member, touches};
ghost use Rattle.stm_tx.specs.Descs.{known};
ghost use Rattle.stm_tx.specs.Rings.{HasSeen};
ghost use Rattle.stm_bell.specs.Stripes.{Has};

use stm_bell::stripes::Stripes;
use stm_logs::filter::Filter;
use stm_logs::read_log::ReadLog;
use stm_model::alg::Alg;
use stm_model::rule::MemRule;
use stm_rule::desc::Desc;

/// Of the words that the running attempt has read. After it has ended it stays so until the next begins.
pub fn read<K: MemRule>(desc: &Desc<K>) -> Stripes
    ensures { (known desc.now).running ≡ true → (a : ℕ) → HasSeen desc.now a → Has a result }
{
    let local = &desc.local;
    if local.granted {
        return Stripes::all();
    }
    match local.algorithm {
        Alg::OrecLazy | Alg::OrecEager => logged(&local.reads),
        Alg::RingSw => loaded(&local.loaded),
        Alg::Cgl | Alg::Tml | Alg::Serial => Stripes::all(),
    }
}

/// Of the words that the last attempt has written into its write log.
pub(crate) fn written<K: MemRule>(desc: &Desc<K>) -> Stripes
    ensures { (a : ℕ) → touches desc.now.own.buffered a ≡ true → Has a result }
{
    let writes = &desc.local.writes;
    let mut stripes = Stripes::none();
    for i in 0..writes.count() {
        stripes.add(writes.item(i).0);
    }
    stripes
}

/// Of the words that have an item.
fn logged(reads: &ReadLog) -> Stripes
    ensures { (a : ℕ) → member (addresses reads.now.items) a ≡ true → Has a result }
{
    let mut stripes = Stripes::none();
    for i in 0..reads.count() {
        stripes.add(reads.item(i).0);
    }
    stripes
}

/// Of the words that are in the filter: its first part has the bit `a % 256` of each address.
fn loaded(filter: &Filter) -> Stripes
    ensures { (a : ℕ) → bit_at (slice_index filter.now (a % 256 / 64)) (a % 64) ≡ 1 → Has a result }
{
    Stripes::of_bits(filter.word(0) | filter.word(1) | filter.word(2) | filter.word(3))
}
