//! Styles that are read.

ghost use Rattle.std.specs.Prelude.{◌≤◌, length, IfOk, IfErr};
ghost use Rattle.bst_run.specs.Sources.{read_style};
ghost use Rattle.bst_run.specs.Stops.{Decides, IsInside};
ghost use Rattle.bst_run.specs.Subjects.{IsSound, style_of};

use crate::report::bad_style;
use crate::stop::Stop;
use bst_parse::fault::StyleFault;
use bst_parse::parse::parse;
use bv_base::limits::STYLE_BYTES;
use name_table::style::Style;
use std::alloc::Global;

/// The style that the bytes are.
pub fn style_from(alloc: Global, source: &[u8]) -> Result<Style, Stop>
    requires { length source.now ≤ STYLE_BYTES }
    ensures decides { Decides (read_style (style_of source.now)) result }
    ensures inside { IfErr result IsInside }
    ensures sound { IfOk result IsSound }
{
    match parse(alloc, source) {
        Ok(style) => Ok(style),
        Err(StyleFault::NoMemory) => Err(Stop::NoMemory),
        Err(fault) => Err(Stop::Told(bad_style(alloc, fault)?)),
    }
}
