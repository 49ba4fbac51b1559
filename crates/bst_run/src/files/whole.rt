//! Files that are read whole.

ghost use Rattle.std.specs.Prelude.{◌≤◌, length, IfOk};
ghost use Rattle.bst_run.specs.Files as file;
ghost use Rattle.bst_run.specs.FilesBegun.{Begins, file_begun};
ghost use Rattle.bst_run.specs.Reads.{Reads};

use crate::stop::Stop;
use bv_base::files::Files;
use bv_base::limits::{DATA_BYTES, STYLE_BYTES};
use bv_base::read_file::{FileAnswer, read_file};
use bv_base::text::Text;
use std::alloc::Global;

/// The whole file of a style or a certificate.
pub fn style_file<F: Files>(alloc: Global, files: &mut F, name: &str) -> Result<Text, Stop>
    ensures reads { Reads ⟦<F as Files>⟧ files.old files.new (λ told. file.file_in told STYLE_BYTES name.now) result }
    ensures begun { Begins (F.told files.old) (λ told. file_begun told name.now) (F.begun files.old) (F.begun files.new) result }
    ensures short { IfOk result (λ text. length text ≤ STYLE_BYTES) }
{
    file_of(alloc, files, name, STYLE_BYTES as u32)
}

/// The whole file of an `.aux` file or a database.
pub fn data_file<F: Files>(alloc: Global, files: &mut F, name: &str) -> Result<Text, Stop>
    ensures reads { Reads ⟦<F as Files>⟧ files.old files.new (λ told. file.file_in told DATA_BYTES name.now) result }
    ensures begun { Begins (F.told files.old) (λ told. file_begun told name.now) (F.begun files.old) (F.begun files.new) result }
    ensures short { IfOk result (λ text. length text ≤ DATA_BYTES) }
{
    file_of(alloc, files, name, DATA_BYTES as u32)
}

/// A whole file of at most `limit` bytes.
#[tactic(auto, using(crate::proofs::ReadsLemmas::last_added))]
fn file_of<F: Files>(alloc: Global, files: &mut F, name: &str, limit: u32) -> Result<Text, Stop>
    ensures reads { Reads ⟦<F as Files>⟧ files.old files.new (λ told. file.file_in told limit name.now) result }
    ensures begun { Begins (F.told files.old) (λ told. file_begun told name.now) (F.begun files.old) (F.begun files.new) result }
    ensures short { IfOk result (λ text. length text ≤ limit) }
{
    match read_file(alloc, files, name, limit) {
        Ok(bytes) => Ok(Text::from_vec(bytes)),
        Err(FileAnswer::Absent) => Err(Stop::Absent(String::from_str(alloc, name)?)),
        Err(FileAnswer::Failed) => Err(Stop::Failed(String::from_str(alloc, name)?)),
        Err(FileAnswer::TooLong) => Err(Stop::TooLong(String::from_str(alloc, name)?)),
        Err(FileAnswer::NoMemory) => Err(Stop::NoMemory),
    }
}
