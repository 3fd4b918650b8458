//! A row beside those above it.
ghost use Rattle.std.specs.Prelude.{◌≡◌, ◌≢◌, None, Decides, IfSome};
ghost use Rattle.std.specs.List.{last_or};
ghost use Rattle.work_script.specs.Parts.{by_kind};
ghost use Rattle.work_script.specs.Reports.{IsBefore, code};

use work_script::report::{Kind, Row};

/// W comes before R and C.
fn code(kind: Kind) -> u8
    ensures { result ≡ code kind }
{
    match kind {
        Kind::W => 0,
        Kind::R | Kind::C => 1,
    }
}

/// Whether a row may stand above the other.
fn is_before(above: &Row, row: &Row) -> bool
    ensures { Decides result (IsBefore above.now row.now) }
{
    if above.place != row.place {
        return above.place < row.place;
    }
    let high = code(above.kind);
    let low = code(row.kind);
    if high != low {
        return high < low;
    }
    if above.caller != row.caller {
        return above.caller < row.caller;
    }
    above.seq <= row.seq
}

/// Whether a row comes after the last one of those above it.
pub fn comes_after(above: &[Row], row: &Row) -> bool
    ensures { Decides result (IfSome (last_or None above.now) (λ x. IsBefore x row.now)) }
{
    match above.last() {
        None => true,
        Some(last) => is_before(last, row),
    }
}

/// Whether a row isn't a W row at the place of the W row above.
pub fn is_apart(wrote: Option<u64>, row: &Row) -> bool
    ensures { Decides result
        (by_kind row.now.kind (IfSome wrote (λ place. place ≢ row.now.place)) (Unit {0})) }
{
    match row.kind {
        Kind::R | Kind::C => true,
        Kind::W => wrote != Some(row.place),
    }
}
