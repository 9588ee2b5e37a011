//! `netflow check` reads a program on standard input and its data sets in the folder in which it was started, and
//! accepts a certificate exactly where it proves what it claims. `netflow run` obeys the statements of such a program on
//! its data. `netflow sample` makes a problem of any size from a seed, solves it and checks its certificate. `netflow import`
//! stores the tables of a DIMACS text, and `netflow export` lists the DIMACS text of a program's problem.
#![tactic(auto)]

use nf_call::{Status, netflow};
use nf_io::{DirLibrary, ReadSource, WriteSink};
use std::alloc::AllocError;
use std::io::ErrorKind;
use std::process::ExitCode;
use std::{env, io};

// The words after the program's name. Words that are no text are none, so the answer is how the program is used.
fn words_of(rt: &HostRuntime) -> Result<Vec<String>, AllocError> {
    let mut words = Vec::new(rt.alloc());
    match env::args(rt) {
        Ok(args) => {
            for word in args.skip(1) {
                words.push(word)?;
            }
            Ok(words)
        }
        Err(e) if e.kind() == ErrorKind::OutOfMemory => Err(AllocError),
        Err(_) => Ok(words),
    }
}

fn main(rt: HostRuntime) -> ExitCode {
    let Ok(words) = words_of(&rt) else {
        return ExitCode::from(Status::NoMemory.number());
    };
    let mut program = ReadSource::new(rt.reader());
    let mut library = DirLibrary::new(rt.alloc(), &rt);
    let mut listing = WriteSink::new(io::writer(&rt));
    let status = netflow(
        rt.alloc(),
        words.as_slice(),
        &mut program,
        &mut library,
        &mut listing,
    );
    ExitCode::from(status.number())
}
