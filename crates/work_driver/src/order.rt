//! The order of a report's rows.
ghost use Rattle.std.specs.Prelude.{◌≡◌, length, IsPermutation};
ghost use Rattle.work_script.specs.Reports.{Ordered, code};

use work_script::report::{Kind, Row};

/// W comes before R and C.
fn code(kind: Kind) -> u8
    ensures { result ≡ code kind }
{
    match kind {
        Kind::W => 0,
        Kind::R | Kind::C => 1,
    }
}

/// What rows are ordered by: place, W before R and C, then caller, then seq.
pub type Key = (u64, u8, usize, usize);

/// What a row is ordered by.
pub fn key(row: &Row) -> Key
    ensures { result ≡ (row.now.place, code row.now.kind, row.now.caller, row.now.seq) }
{
    (row.place, code(row.kind), row.caller, row.seq)
}

/// Puts rows into the order of a report. It takes no memory. Rows that stand in this order or in the reverse of it take
/// one pass.
pub fn order(rows: &mut [Row])
    ensures moved { IsPermutation rows.old rows.new }
    ensures count { length rows.new ≡ length rows.old }
    ensures ordered { Ordered rows.new }
{
    rows.sort_unstable_by_key(|r| key(r));
}
