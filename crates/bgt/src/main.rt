//! The program `bgt`: its words, standard input, standard output and one file. All that it does is `bgt_cli::run`.
#![tactic(auto)]

use bgt_cli::{Status, run};
use message_text::Limits;
use outside::RealOutside;
use std::alloc::{AllocError, Global};
use std::io::ErrorKind;
use std::process::ExitCode;
use std::{env, io};

// The words of the command line after the program's name.
fn words(rt: &HostRuntime) -> io::Result<Vec<String>> {
    let mut words = Vec::new(rt.alloc());
    for word in env::args(rt)?.skip(1) {
        words.push(word)?;
    }
    Ok(words)
}

fn texts(alloc: Global, words: &[String]) -> Result<Vec<&str>, AllocError> {
    words.iter().map(|word| word.as_str()).collect(alloc)
}

// The word behind the command: the file, where the command has one. It is opened at the first call of the disk, so by such a
// command alone.
fn file_of<'a>(words: &[&'a str]) -> Option<&'a str> {
    words.get(1).copied()
}

// Whether the file may be made and written.
fn may_write(words: &[&str]) -> bool {
    match words {
        ["load", ..] => true,
        _ => false,
    }
}

fn status_of_words(rt: &HostRuntime, words: &[&str]) -> Status {
    let mut outside = RealOutside::new(rt, file_of(words), may_write(words));
    run(rt.alloc(), words, &Limits::standard(), &mut outside)
}

// A word that is not UTF-8 is of no listed form, as no words are.
fn status_of(rt: &HostRuntime) -> Status {
    let words = match words(rt) {
        Ok(words) => words,
        Err(e) if e.kind() == ErrorKind::InvalidData => return status_of_words(rt, &[]),
        Err(_) => return Status::NoMemory,
    };
    match texts(rt.alloc(), &words) {
        Ok(texts) => status_of_words(rt, &texts),
        Err(AllocError) => Status::NoMemory,
    }
}

fn main(rt: HostRuntime) -> ExitCode {
    ExitCode::from(status_of(&rt).code())
}
