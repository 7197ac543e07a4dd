//! The parameter of a command that has a word of no value.

ghost use Rattle.std.specs.Prelude.{map, string_bytes, IfOk};
ghost use Rattle.command_table.specs.Unfit.{IsToldUnfit};

use crate::may::first_unfit;
use crate::parameter::Parameter;
use crate::table::{named, parts_of, read_beginning_of};
use std::alloc::{AllocError, Global};

/// A parameter of the command that words begin with, that has words which spell no value of it; None exactly where the words
/// are of no command, where `clap` does not take them, even if none were required, or where each spells a value. An Err is
/// want of memory alone.
pub fn unfit_parameter(alloc: Global, words: &[String]) -> Result<Option<Parameter>, AllocError>
    ensures { IfOk result (IsToldUnfit (map string_bytes words.now)) }
{
    let Some(name) = named(words) else {
        return Ok(None);
    };
    let Some((_, _, behind)) = parts_of(words) else {
        return Ok(None);
    };
    match read_beginning_of(alloc, name, behind)? {
        Some(found) => Ok(first_unfit(&found, name.form().parameters)),
        None => Ok(None),
    }
}
