//! What holds of every text.

ghost use Rattle.std.specs.Prelude.{◌≡◌, ◌↔◌, Ok, Err};
ghost use Rattle.aux_read.specs.Faults.{IsFaultOf};
ghost use Rattle.aux_read.specs.Meaning.{AuxReads};
ghost use Rattle.aux_read.specs.Reading.{aux_of};
ghost use Rattle.aux_read.specs.declared.aux.Aux.{Aux};
ghost use Rattle.aux_read.specs.declared.fault.AuxFault.{AuxFault};

/// A text is read as an `.aux` file exactly where the grammar says so: it spells lines, no second one of them names a
/// style or databases, and the lines ask for what is read.
pub fn read_as_the_grammar(source: &[u8])
    ensures { (aux : Aux) → (aux_of source.now ≡ Ok aux) ↔ AuxReads source.now aux }
{}

/// Every fault of a text stands at a byte of it or at its end, and want of memory is none.
pub fn faults_in_the_text(source: &[u8])
    ensures { (fault : AuxFault) → aux_of source.now ≡ Err fault → IsFaultOf source.now fault }
{}
