//! The reader of `.aux` files.

ghost use Rattle.std.specs.Prelude.{◌≡◌, ◌≢◌, ◌≤◌, length, Ok, Err, IfOk, IfErr};
ghost use Rattle.aux_read.specs.FileNames.{GivesFileNames};
ghost use Rattle.aux_read.specs.Keys.{HaveKeys};
ghost use Rattle.aux_read.specs.Reading.{aux_of};
ghost use Rattle.aux_read.specs.declared.fault.AuxFault.TheVariants.{NoMemory as WantOfMemory};

use crate::aux::Aux;
use crate::fault::AuxFault;
use crate::lines::take_line;
use bstr::ByteSlice;
use bv_base::limits::DATA_BYTES;
use bv_base::place::Place;
use std::alloc::Global;

/// Reads an `.aux` file of at most 16777216 bytes, or gives the fault of the first line that is at fault.
///
/// Each key that is cited has a byte and no white space, and each name of a file is UTF-8. Each byte is read a fixed
/// number of times.
pub fn read(alloc: Global, source: &[u8]) -> Result<Aux, AuxFault>
    requires { length source.now ≤ DATA_BYTES }
    ensures ok { IfOk result (λ aux. aux_of source.now ≡ Ok aux) }
    ensures keys { IfOk result (λ aux. HaveKeys aux.items) }
    ensures names { IfOk result GivesFileNames }
    ensures fault { IfErr result (λ fault. fault ≢ WantOfMemory → aux_of source.now ≡ Err fault) }
{
    let aux = read_lines(alloc, source)?;
    Ok(aux)
}

/// Reads the lines of an `.aux` file.
fn read_lines(alloc: Global, source: &[u8]) -> Result<Aux, AuxFault>
    requires { length source.now ≤ DATA_BYTES }
    ensures ok { IfOk result (λ aux. aux_of source.now ≡ Ok aux) }
    ensures fault { IfErr result (λ fault. fault ≢ WantOfMemory → aux_of source.now ≡ Err fault) }
{
    let mut aux = Aux::nothing(alloc);
    let mut place = Place::START;
    let mut lines = source.lines_with_terminator();
    while let Some(line) = lines.next() {
        aux = take_line(alloc, aux, place, line)?;
        place.line += 1;
    }
    Ok(aux)
}
