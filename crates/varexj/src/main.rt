//! The program: the top call over real files and the standard streams.
#![tactic(auto)]

use std::alloc::Global;
use std::io::ErrorKind;
use std::process::ExitCode;
use std::{env, io};
use vx_cli::{Status, put_line, varex};
use vx_io::{HostFiles, HostSink};

/// The words after the program's name.
fn words(rt: &HostRuntime, alloc: Global) -> io::Result<Vec<String>> {
    let mut words = Vec::new(alloc);
    for word in env::args(rt)?.skip(1) {
        words.push(word)?;
    }
    Ok(words)
}

fn main(rt: HostRuntime) -> ExitCode {
    let alloc = rt.alloc();
    let mut out = HostSink::out(rt.stdout());
    let mut err = HostSink::err(rt.stderr());
    let words = match words(&rt, alloc) {
        Ok(words) => words,
        Err(e) if e.kind() == ErrorKind::OutOfMemory => {
            let _ = put_line(&mut err, &Status::NoMemory);
            return ExitCode::from(Status::NoMemory.code());
        }
        // A word that is no text is a wrong use, as no words are.
        Err(_) => Vec::new(alloc),
    };
    let mut files = HostFiles::new(rt);
    let status = varex(alloc, &words, &mut files, &mut out, &mut err);
    ExitCode::from(status.code())
}
