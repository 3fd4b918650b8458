//! Summaries, written as their text.
ghost use Rattle.std.specs.Prelude.{◌≡◌, ◌++◌, IfOk, OnOk, string_bytes};
ghost use Rattle.work_gen.specs.Summaries.{summary_bytes, summary_line};

use crate::summary::Summary;
use std::alloc::{AllocError, Global};
use stm_model::memory::Memory;

/// The text of a summary. Memory may be refused.
pub fn summary_text(alloc: Global, summary: &Summary) -> Result<Vec<u8>, Memory>
    ensures { IfOk result (λ t. t.items ≡ summary_bytes summary.now) }
{
    let mut text = String::new(alloc);
    text.push_str("summary 1\n")?;
    put_line(&mut text, "commits", summary.commits)?;
    put_line(&mut text, "accounts", summary.accounts)?;
    put_line(&mut text, "counter", summary.counter)?;
    put_line(&mut text, "list", summary.list)?;
    text.push_str("end\n")?;
    Ok(text.into_bytes())
}

/// `NAME N`.
fn put_line(text: &mut String, name: &str, n: u64) -> Result<(), AllocError>
    ensures { OnOk result
        (string_bytes text.new ≡ string_bytes text.old ++ summary_line name.now n) }
{
    text.push_str(name)?;
    write!(text, " {n}\n")
}
