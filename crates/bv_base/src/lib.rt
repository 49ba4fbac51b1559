//! What every crate of Volutecress stands on: places in a text, statuses, lists and byte strings that contracts
//! read as lists, sets of keys, the classes and runs of bytes of the style language, limits, and the files and sinks of a run.
#![tactic(auto)]

pub mod bytes;
pub mod copied;
pub mod files;
pub mod host_files;
pub mod host_sink;
pub mod key_set;
pub mod keyed_list;
pub mod levels;
pub mod limits;
pub mod mem_files;
pub mod mem_sink;
pub mod memory;
pub mod packed_texts;
pub mod place;
pub mod read_file;
pub mod runs;
pub mod seq;
pub mod sink;
pub mod status;
pub mod text;
pub mod write_all;
