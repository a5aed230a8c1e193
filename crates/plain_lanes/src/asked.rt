//! The steps that jobs ask.

ghost use Rattle.std.specs.Prelude.{◌≡◌, IfOk};
ghost use Rattle.store_model.specs.declared.step.Step.TheVariants as steps;

use std::alloc::{AllocError, Global};
use store_model::Step;
use store_types::{FileName, Rows};
use wire_commands::Command;

/// The name of a listed file. A text that is none is taken for want of memory: no manifest lists it.
pub fn file_name(alloc: Global, text: &[u8]) -> Result<FileName, AllocError>
    ensures { IfOk result (λ name. name ≡ text.now) }
{
    match FileName::check(alloc, text)? {
        Ok(name) => Ok(name),
        Err(_) => Err(AllocError),
    }
}

/// The read of a file's part, from an offset in bytes.
pub fn file_step(alloc: Global, name: &[u8], offset: u64) -> Result<Step, AllocError>
    ensures { IfOk result (λ step. step ≡ steps.ReadFile name.now offset) }
{
    let name = file_name(alloc, name)?;
    Ok(Step::ReadFile { name, offset })
}

/// The read of the chunk at an entry of an index.
pub fn chunk_step(alloc: Global, name: &[u8], entry: u32) -> Result<Step, AllocError>
    ensures { IfOk result (λ step. step ≡ steps.ReadChunk name.now entry) }
{
    let name = file_name(alloc, name)?;
    Ok(Step::ReadChunk { name, entry })
}

/// A copy of a command that a SYNC sends. It sends no other, and has no memory for one.
pub fn copied(alloc: Global, command: &Command) -> Result<Command, AllocError>
    ensures { IfOk result (λ copy. copy ≡ command.now) }
{
    match command {
        Command::NewFixed {
            file,
            size,
            chunk_size,
        } => Ok(Command::NewFixed {
            file: file.clone()?,
            size: *size,
            chunk_size: *chunk_size,
        }),
        Command::NewDynamic { file } => Ok(Command::NewDynamic {
            file: file.clone()?,
        }),
        Command::Chunk { digest, blob } => Ok(Command::Chunk {
            digest: *digest,
            blob: blob.clone()?,
        }),
        Command::Append { number, entries } => Ok(Command::Append {
            number: *number,
            entries: Rows::from_vec(Vec::from_slice(alloc, entries.as_slice())?),
        }),
        Command::CloseIndex {
            number,
            count,
            size,
            csum,
        } => Ok(Command::CloseIndex {
            number: *number,
            count: *count,
            size: *size,
            csum: *csum,
        }),
        Command::Blob { file, blob } => Ok(Command::Blob {
            file: file.clone()?,
            blob: blob.clone()?,
        }),
        Command::Finish => Ok(Command::Finish),
        _ => Err(AllocError),
    }
}
