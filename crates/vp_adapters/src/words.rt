//! The words of the command line.

use std::alloc::Global;
use std::env::Env;
use std::{env, io};
use vp_base::{NoMemory, Word};

/// Reads the words of the command line after the `first` ones, of which the program's name is one. The list is empty, which is no
/// command, if a word isn't UTF-8.
pub fn words_after<R: Env + Alloc<A = Global>>(
    rt: &R,
    first: usize,
) -> Result<Vec<Word>, NoMemory> {
    match env::args(rt) {
        Ok(args) => words_of(rt.alloc(), args, first),
        Err(fault) if fault.kind() == io::ErrorKind::OutOfMemory => Err(NoMemory),
        Err(_) => Ok(Vec::new(rt.alloc())),
    }
}

fn words_of(alloc: Global, args: env::Args, first: usize) -> Result<Vec<Word>, NoMemory> {
    let mut words = Vec::new(alloc);
    for arg in args.skip(first) {
        words.push(Word::from_vec(arg.into_bytes()))?;
    }
    Ok(words)
}
