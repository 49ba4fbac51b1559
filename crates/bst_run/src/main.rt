//! The program: it reads the words, decides or runs, and ends with the answer's number.
#![tactic(auto)]

mod answer;
mod check;
mod command;
mod data_fault;
mod deliver;
mod files;
mod generating;
mod inferring;
pub mod laws;
mod outcome;
mod refusal;
mod report;
mod run;
mod running;
mod stop;
#[cfg(test)]
mod tests;
mod under;
mod unknown;
mod words;

use crate::command::command;
use bv_base::host_files::HostFiles;
use bv_base::host_sink::HostSink;
use bv_base::status::Status;
use std::env;
use std::process::ExitCode;

fn main(rt: HostRuntime) -> ExitCode {
    let alloc = rt.alloc();
    let mut words = Vec::new(alloc);
    let Ok(args) = env::args(&rt) else {
        return ExitCode::from(Status::NoMemory.number());
    };
    for (index, word) in args.enumerate() {
        if index > 0 && words.push(word).is_err() {
            return ExitCode::from(Status::NoMemory.number());
        }
    }
    let mut files = HostFiles::new(alloc, &rt);
    let mut out = HostSink::new(rt.stdout());
    let mut err = HostSink::new(rt.stderr());
    let status = command(alloc, words.as_slice(), &mut files, &mut out, &mut err);
    ExitCode::from(status.number())
}
