//! Judges the cases of the files that its arguments name: each unit is given to the analyser, and its answer is put beside
//! the one that is written there. It prints what differs, and how many cases are as written; its status is 0 where all are.
//!
//! A file is UTF-8 text in blocks, with a blank line between two. Each line of a block has a mark, a blank and a text:
//!
//! - `#` a sentence that says what the case shows; it holds for the blocks that follow too, up to the next such line
//! - `$` the words of the command, none or several; they hold as the sentence does
//! - `@` the name of a front, whose lines stand here
//! - `|` a line of the unit; lines are joined by line ends, and none stands after the last one
//! - `*` a last line of a unit; with several of them each makes a unit of its own after the lines before
//! - `=` the status; with the word `twice` the answer, given as a unit, is its own answer too; or the word `judged`, where the unit is
//! accepted or warned of
//! - `>` a line of the answer, with a line end after it
//!
//! A block that begins with `:` and a name says a front: its `@` and `|` lines, for all blocks and all files after it.
//! A block of `#` lines alone is a remark.
//!
//! In a line of a unit or of an answer these are escapes:
//!
//! - `\n`, `\t`, `\\`, `\x` with two hexadecimal digits: a byte
//! - `\{N:` up to `\}`: what stands between, N times; `\#` in it is how often it stood before, and `\+` one more than that
//! - `\|` in a unit: the unit is cut here. A unit with cuts is no case itself; what it is up to each cut is one
//! - `\e` in an answer: the line and the column after the last byte of the unit
#![tactic(auto)]

mod block;
mod case;
mod fault;
mod file;
mod notation;
mod text;

use block::Front;
use case::Tally;
use file::File;
use std::process::ExitCode;
use std::{env, fs, io};

// Ends with success where all cases are as written.
fn main(rt: HostRuntime) -> ExitCode {
    match judge_files(&rt) {
        Ok(true) => ExitCode::SUCCESS,
        _ => ExitCode::FAILURE,
    }
}

// Judges the files that the arguments name, and tells whether all cases are as written.
fn judge_files(rt: &HostRuntime) -> io::Result<bool> {
    let mut fronts = Vec::new(rt.alloc());
    let mut tally = Tally::new(rt.alloc());
    for name in env::args(rt)?.skip(1) {
        if !judge_file(rt, name.as_str(), &mut fronts, &mut tally)? {
            return Ok(false);
        }
    }
    print!(rt; "{}", tally.report)?;
    println!(rt; "{} cases are as written", tally.right)?;
    if tally.wrong > 0 {
        println!(rt; "{} cases are not", tally.wrong)?;
    }
    Ok(tally.wrong == 0)
}

// Judges the cases of a file, and tells whether it could be read to its end.
fn judge_file(
    rt: &HostRuntime,
    name: &str,
    fronts: &mut Vec<Front>,
    tally: &mut Tally,
) -> io::Result<bool> {
    let Ok(text) = fs::read_to_string(rt, name) else {
        println!(rt; "{name}: the file can't be read")?;
        return Ok(false);
    };
    let mut file = File::new(rt.alloc(), name);
    match file.take_all(text.as_str(), fronts, tally) {
        Ok(()) => Ok(true),
        Err(fault) => {
            println!(rt; "{name}:{}: {fault}", file.line)?;
            Ok(false)
        }
    }
}
