//! Reading a whole file within a limit.

ghost use Rattle.std.specs.Prelude.{◌≡◌, ◌+◌, ◌<◌, ◌≤◌, ◌⊎◌, [], ◌∷◌, ◌++◌, None, Some, vec_len, OnOk, IfOk, IfSome, IsErrOf};
ghost use Rattle.std.specs.FinMap.{get};
ghost use Rattle.bv_base.specs.Outside.{Rose, opened, missing, IsReadPast};

use crate::files::{BeginAnswer, Failed, Files};
use std::alloc::{AllocError, Global};

/// Why a file wasn't read whole.
#[derive(Clone, Copy, Debug, PartialEq, Eq)]
pub enum FileAnswer {
    /// There is no file of that name.
    Absent,
    /// The file couldn't be begun or read, and the faults rose.
    Failed,
    /// The file has more bytes than the limit.
    TooLong,
    /// Want of memory.
    NoMemory,
}

impl From<AllocError> for FileAnswer {
    ghost use Rattle.bv_base.specs.declared.read_file.FileAnswer.{FileAnswer};

    ghost from_gives = { λ _ answer. answer ≡ FileAnswer.NoMemory };

    fn from(_refused: AllocError) -> FileAnswer {
        FileAnswer::NoMemory
    }
}

/// Reads a whole file of at most `limit` bytes. It reads at most one byte more than the limit.
pub fn read_file<F: Files>(
    alloc: Global,
    files: &mut F,
    name: &str,
    limit: u32,
) -> Result<Vec<u8>, FileAnswer>
    ensures found { IfOk result (λ bytes. IfSome (F.told files.old) (λ told. get told name.now ≡ Some bytes.items)) }
    ensures short { IfOk result (λ bytes. vec_len bytes ≤ limit) }
    ensures opened { OnOk result (F.begun files.new ≡ F.begun files.old ++ opened name.now ∷ []) }
    ensures absent { IsErrOf result FileAnswer.Absent → IfSome (F.told files.old) (λ told. get told name.now ≡ None) }
    ensures absent_begun { IsErrOf result FileAnswer.Absent → F.begun files.new ≡ F.begun files.old ++ missing name.now ∷ [] }
    ensures failed { IsErrOf result FileAnswer.Failed → Rose (F.faults files.old) (F.faults files.new) }
    ensures failed_begun { IsErrOf result FileAnswer.Failed → F.begun files.new ≡ F.begun files.old ++ opened name.now ∷ [] }
    ensures too_long { IsErrOf result FileAnswer.TooLong → IfSome (F.told files.old) (λ told. IsReadPast limit (get told name.now) (F.rest files.new)) }
    ensures too_long_begun { IsErrOf result FileAnswer.TooLong → F.begun files.new ≡ F.begun files.old ++ opened name.now ∷ [] }
    ensures no_memory_begun { IsErrOf result FileAnswer.NoMemory → (F.begun files.new ≡ F.begun files.old) ⊎ (F.begun files.new ≡ F.begun files.old ++ opened name.now ∷ []) }
    ensures told { F.told files.new ≡ F.told files.old }
    ensures count { F.faults files.old ≤ F.faults files.new }
{
    match files.begin(name) {
        Ok(()) => read_rest(alloc, files, limit),
        Err(BeginAnswer::Absent) => Err(FileAnswer::Absent),
        Err(BeginAnswer::Failed) => Err(FileAnswer::Failed),
        Err(BeginAnswer::NoMemory) => Err(FileAnswer::NoMemory),
    }
}

/// Reads what is left of the file that was begun.
fn read_rest<F: Files>(alloc: Global, files: &mut F, limit: u32) -> Result<Vec<u8>, FileAnswer>
    ensures found { IfOk result (λ bytes. IfSome (F.told files.old) (λ _. F.rest files.old ≡ bytes.items)) }
    ensures short { IfOk result (λ bytes. vec_len bytes ≤ limit) }
    ensures there { IsErrOf result FileAnswer.Absent → ⊥ }
    ensures failed { IsErrOf result FileAnswer.Failed → Rose (F.faults files.old) (F.faults files.new) }
    ensures too_long { IsErrOf result FileAnswer.TooLong → IfSome (F.told files.old) (λ _. IsReadPast limit (Some (F.rest files.old)) (F.rest files.new)) }
    ensures begun { F.begun files.new ≡ F.begun files.old }
    ensures told { F.told files.new ≡ F.told files.old }
    ensures count { F.faults files.old ≤ F.faults files.new }
{
    let most = limit as usize;
    let mut bytes = Vec::new(alloc);
    let mut buffer = [0u8; 1024];
    while bytes.len() <= most {
        let room = (most + 1 - bytes.len()).min(1024);
        match files.read(&mut buffer[..room]) {
            Ok(0) => return Ok(bytes),
            Ok(count) => bytes.extend_from_slice(&buffer[..count])?,
            Err(Failed) => return Err(FileAnswer::Failed),
        }
    }
    Err(FileAnswer::TooLong)
}
