//! Names as commands give them.

ghost use Rattle.std.specs.Prelude.{◌≡◌, true, IfOk, IfErr};
ghost use Rattle.store_types.specs.FileNames.{is_file_name};
ghost use Rattle.core_writer.specs.Names.{IsNoName};

use std::alloc::Global;
use store_stops::Stop;
use store_types::{FileName, Refusal};

/// The text as the name of a snapshot's file.
pub fn file_name(alloc: Global, text: &[u8]) -> Result<FileName, Stop>
    ensures name { IfOk result (λ name. (name ≡ text.now) × (is_file_name text.now ≡ true)) }
    ensures stops { IfErr result (IsNoName text.now) }
{
    match FileName::check(alloc, text)? {
        Ok(name) => Ok(name),
        Err(_) => Err(Stop::Refused(Refusal::BadName)),
    }
}
