//! Plays a session, and returns what it leaves.
use super::memory_file::MemoryFile;
use super::memory_line::MemoryLine;
use player::{RunFiles, Watched, read_words, session};
use std::sync::Wait;
use std::test::Fail;
use std::thread::Threads;
use std::time::Clock;

/// The exit status of a session, and what it has written.
#[derive(Drop)]
pub(crate) struct Ended {
    pub status: u8,
    pub output: Vec<u8>,
    pub errors: Vec<u8>,
    pub wear: MemoryFile,
    pub collections: MemoryFile,
}

impl Ended {
    /// Whether the session ended with this status, this output and this text on standard error.
    pub(crate) fn is(&self, status: u8, output: &str, errors: &str) -> bool {
        self.status == status
            && self.output.as_slice() == output.as_bytes()
            && self.errors.as_slice() == errors.as_bytes()
    }
}

/// Plays a session with these arguments, which spaces separate, and this trace. Its files take a number of bytes at each write.
pub(crate) fn play<R: Threads + Wait + Clock + Sync + AllocGlobal>(
    rt: &R,
    arguments: &str,
    trace: &[u8],
    most: usize,
) -> Result<Ended, Fail> {
    let alloc = rt.alloc();
    let mut arguments_given = Vec::new(alloc);
    for argument in arguments.split(' ') {
        arguments_given.push(argument)?;
    }
    let line = MemoryLine {
        words: &arguments_given,
    };
    let texts = read_words(&line, alloc).map_err(|_| "the words of a line")?;
    let mut words = Vec::new(alloc);
    for text in &texts {
        words.push(text.as_str())?;
    }
    let mut input = Watched::new(trace);
    let mut output = Watched::new(Vec::new(alloc));
    let mut errors = Watched::new(Vec::new(alloc));
    let mut files = RunFiles {
        collections: Watched::new(MemoryFile::new(alloc, most)),
        wear: Watched::new(MemoryFile::new(alloc, most)),
    };
    let status = session(
        rt,
        alloc,
        &words,
        &mut input,
        &mut output,
        &mut errors,
        &mut files,
    );
    let RunFiles { collections, wear } = files;
    Ok(Ended {
        status,
        output: output.into_inner(),
        errors: errors.into_inner(),
        wear: wear.into_inner(),
        collections: collections.into_inner(),
    })
}
