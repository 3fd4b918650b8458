//! The words of a command line.
ghost use Rattle.std.specs.Prelude.{◌≡◌, IfOk, map, string_bytes};

use std::alloc::{AllocError, AllocGlobal, Global};
use std::env::{self, Env};
use std::io::ErrorKind;

/// The arguments of the program, its name first.
///
/// # Errors
/// `InvalidData` where one isn't UTF-8, `OutOfMemory` where memory is refused.
pub fn arguments<R: Env + AllocGlobal>(rt: &R) -> Result<Vec<String>, ErrorKind> {
    match env::args(rt) {
        Ok(words) => words
            .collect(rt.alloc())
            .map_err(|_| ErrorKind::OutOfMemory),
        Err(error) => Err(error.kind()),
    }
}

/// The words of some arguments.
///
/// # Errors
/// Memory, where it is refused.
pub fn words_in(alloc: Global, arguments: &[String]) -> Result<Vec<&str>, AllocError>
    ensures { IfOk result (λ w. map (λ x. x.now) w.items ≡ map string_bytes arguments.now) }
{
    let mut words = Vec::new(alloc);
    for argument in arguments {
        words.push(argument.as_str())?;
    }
    Ok(words)
}
