//! Running the program over a source and a sink in memory.

use std::alloc::{AllocError, Global};
use vp_base::Word;
use vp_disks::SureDisk;
use vp_outside::{SureLink, TextSink, TextSource};
use vp_status::Status;
use vp_top::run;

/// The words of a command line, with blanks between them.
pub fn words(alloc: Global, line: &str) -> Result<Vec<Word>, AllocError> {
    let mut words = Vec::new(alloc);
    for text in line.split_ascii_whitespace() {
        words.push(Word::from_vec(Vec::from_slice(alloc, text.as_bytes())?))?;
    }
    Ok(words)
}

/// Runs the command line over a link that has nothing to give and an empty log.
pub fn run_alone(
    alloc: Global,
    words: &[Word],
    source: &mut TextSource,
    sink: &mut TextSink,
) -> Status {
    let mut link = SureLink::new(alloc, Vec::new(alloc));
    let mut disk = SureDisk::new(alloc);
    run(alloc, words, source, sink, &mut link, &mut disk)
}

/// Runs the command line on the input.
pub fn run_on(
    alloc: Global,
    line: &str,
    input: &str,
    sink: &mut TextSink,
) -> Result<Status, AllocError> {
    let text = Vec::from_slice(alloc, input.as_bytes())?;
    let mut source = TextSource::new(text, Vec::new(alloc));
    let words = words(alloc, line)?;
    Ok(run_alone(alloc, &words, &mut source, sink))
}

/// Whether the command line gets this status for the input, and prints this text.
pub fn answers(
    alloc: Global,
    line: &str,
    input: &str,
    status: Status,
    text: &str,
) -> Result<bool, AllocError> {
    let mut sink = TextSink::new(alloc, Vec::new(alloc));
    let end = run_on(alloc, line, input, &mut sink)?;
    Ok(end == status && sink.bytes() == text.as_bytes())
}

/// Whether the schedule is replayed, and this is printed.
pub fn is_printed(alloc: Global, input: &str, text: &str) -> Result<bool, AllocError> {
    answers(alloc, "replay", input, Status::Done, text)
}
