//! What is told on standard error beside a status: no part of what `bench` writes.
use crate::status::Status;
use crate::why::Why;
use std::alloc::{AllocError, Global};
use work_check::checking::Part;
use work_cli::reading::Files;

/// How many bytes of a file's name are shown.
const MOST_SHOWN: usize = 24;

/// What there is to tell of a status, where `why` is what is wrong, and `names` are the files that were read.
///
/// # Errors
/// Memory, where it is refused.
pub fn told(
    alloc: Global,
    status: Status,
    why: Option<Why>,
    names: &Files,
) -> Result<Option<String>, AllocError> {
    let said = match status {
        Status::Ok | Status::Help => return Ok(None),
        Status::Usage => match why {
            Some(why) => why.sentence,
            None => return Ok(None),
        },
        Status::Refused { .. } | Status::No { .. } | Status::ReadFault => match why {
            Some(why) => of_file(alloc, status, why, names)?,
            None => return Ok(None),
        },
        Status::WriteFault => "standard output could not be written to the end".to_string(alloc)?,
        Status::Memory => "memory was refused, and nothing was written".to_string(alloc)?,
        Status::ClockFull { clock } => {
            format!(in alloc;
                "a call found the clock at its limit, {clock}; here stands a lesser `clock C` on line 8"
            )?
        }
    };
    Ok(Some(said))
}

/// A sentence, after the name of the file that it is of where one was named.
fn of_file(alloc: Global, status: Status, why: Why, names: &Files) -> Result<String, AllocError> {
    let name = match why.part {
        Part::Workload => names.first,
        Part::Report => names.report,
    };
    let mut said = String::new(alloc);
    match (name, status) {
        (Some(name), _) => put_name(&mut said, name)?,
        (None, Status::ReadFault) => said.push_str("standard input")?,
        (None, _) => return Ok(why.sentence),
    }
    write!(said, ": {}", why.sentence)?;
    Ok(said)
}

/// Appends the last bytes of a file's name.
fn put_name(said: &mut String, name: &str) -> Result<(), AllocError> {
    let start = name.len().saturating_sub(MOST_SHOWN);
    if 0 < start {
        said.push_str("..")?;
    }
    for (i, c) in name.char_indices() {
        if start <= i {
            said.push(if c.is_control() { '?' } else { c })?;
        }
    }
    Ok(())
}
