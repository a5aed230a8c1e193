//! What commands change of a writer.

ghost use Rattle.std.specs.Prelude.{◌≡◌, OnOk, OnErr};
ghost use Rattle.store_model.specs.WriterSteps.{with_pool};
ghost use Rattle.plain_sessions.specs.Changes.{changed, FitsWriter};

use crate::archives::Begun;
use crate::writer::Writer;
use plain_snapshots::{BlobData, File};
use std::alloc::AllocError;

/// What a command changes of a writer.
#[derive(Drop)]
pub enum Change {
    /// Pieces come to the pool.
    Pool(Vec<BlobData>),
    /// An archive is begun.
    Begin(Begun),
    /// The archive of this number has more pieces.
    Grow(u8, Vec<BlobData>),
    /// The archive of this number is not open any more, and this is its file.
    Close(u8, File),
    /// A file comes to the files.
    Upload(File),
}

impl Writer {
    /// These pieces come behind those of the pool. At want of memory nothing has changed.
    fn add_pieces(&mut self, pieces: Vec<BlobData>) -> Result<(), AllocError>
        ensures ok { OnOk result (self.new ≡ with_pool pieces.items self.old) }
        ensures err { OnErr result (self.new ≡ self.old) }
    {
        let mut pieces = pieces;
        self.pool.append(&mut pieces)?;
        Ok(())
    }

    /// At want of memory nothing has changed.
    pub(crate) fn change(&mut self, change: Change) -> Result<(), AllocError>
        requires { FitsWriter change self.old }
        ensures ok { OnOk result (self.new ≡ changed change self.old) }
        ensures err { OnErr result (self.new ≡ self.old) }
    {
        match change {
            Change::Pool(pieces) => self.add_pieces(pieces)?,
            Change::Begin(begun) => self.begun.push(begun)?,
            Change::Grow(number, pieces) => self.begun.grow(number, pieces)?,
            Change::Close(number, file) => {
                self.uploads.insert(file)?;
                self.begun.close(number);
            }
            Change::Upload(file) => self.uploads.insert(file)?,
        }
        Ok(())
    }
}
