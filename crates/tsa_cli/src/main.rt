//! The program: the words are its arguments, the unit is standard input, and the answer goes to standard output.
#![tactic(auto)]

use std::alloc::Global;
use std::process::ExitCode;
use std::{env, io};
use tsa_base::{ReaderSource, WriterSink};
use tsa_tool::tool;

const NO_MEMORY: u8 = 6;

fn main(rt: HostRuntime) -> ExitCode {
    let Some(words) = words_of(rt.alloc(), env::args(&rt)) else {
        return ExitCode::from(NO_MEMORY);
    };
    let mut input = ReaderSource::new(rt.stdin());
    let mut out = WriterSink::new(rt.stdout());
    ExitCode::from(tool(rt.alloc(), &words, &mut input, &mut out))
}

// The arguments without the program's name. Where one of them is no text there are no words, so they are refused; for
// want of memory there is no answer.
fn words_of(alloc: Global, args: io::Result<env::Args>) -> Option<Vec<String>> {
    let mut words = Vec::new(alloc);
    match args {
        Ok(args) => {
            for word in args.skip(1) {
                words.push(word).ok()?;
            }
            Some(words)
        }
        Err(error) if error.kind() == io::ErrorKind::OutOfMemory => None,
        Err(_) => Some(words),
    }
}
