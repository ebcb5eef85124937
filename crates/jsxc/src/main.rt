//! The program: from standard input to standard output.
#![tactic(auto)]

use jsx_base::{Sink, StdSink, StdSource};
use react_compile::{Status, run};
use std::alloc::AllocError;
use std::env;
use std::io::ErrorKind;
use std::process::ExitCode;

/// The words behind the program's name. A word that isn't UTF-8 stands there as an empty one, which no command takes.
fn words(rt: &HostRuntime) -> Result<Vec<String>, AllocError> {
    let mut words = Vec::new(rt.alloc());
    match env::args(rt) {
        Ok(args) => {
            for word in args.skip(1) {
                words.push(word)?;
            }
        }
        Err(e) if e.kind() == ErrorKind::InvalidData => words.push(String::new(rt.alloc()))?,
        Err(_) => return Err(AllocError),
    }
    Ok(words)
}

fn main(rt: HostRuntime) -> ExitCode {
    let mut input = StdSource::new(rt.reader());
    let mut out = StdSink::new(rt.stdout());
    let mut err = StdSink::new(rt.stderr());
    let status = match words(&rt) {
        Ok(words) => run(rt.alloc(), &words, &mut input, &mut out, &mut err),
        Err(AllocError) => {
            let _ = err.write(b"error: out of memory\n");
            Status::Memory
        }
    };
    ExitCode::from(status.code())
}
