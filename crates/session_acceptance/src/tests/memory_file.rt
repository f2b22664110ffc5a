//! A file in memory, which takes a number of bytes at each write.
ghost use Rattle.std.specs.Prelude.{Some, option_map};

use player::{NamedFile, OpenFault};
use std::alloc::Global;
use std::io;
use std::io::Write;

/// The name by which it was opened, and what was written to it.
#[derive(Drop)]
pub(crate) struct MemoryFile {
    alloc: Global,
    name: Option<Vec<u8>>,
    text: Vec<u8>,
    // How many bytes it takes at each write.
    most: usize,
    // Why it could not be opened.
    refusal: Option<OpenFault>,
}

impl MemoryFile {
    /// A file that is not open.
    pub(crate) fn new(alloc: Global, most: usize) -> MemoryFile {
        MemoryFile {
            alloc,
            name: None,
            text: Vec::new(alloc),
            most,
            refusal: None,
        }
    }

    /// Whether it holds this: the name by which it was opened and a line end, and then what was written to it. A file that was not opened
    /// holds nothing.
    pub(crate) fn holds(&self, told: &str) -> bool {
        let Some(name) = &self.name else {
            return told.is_empty() && self.text.is_empty();
        };
        let mut parts = told.as_bytes().splitn(2, |byte| *byte == b'\n');
        parts.next() == Some(name.as_slice()) && parts.next() == Some(self.text.as_slice())
    }
}

impl NamedFile for MemoryFile {
    ghost opened_as = { λ file. option_map (λ name. name.items) file.name };

    ghost refused_as = { λ file. file.refusal };

    fn open(&mut self, name: &str) -> Result<(), OpenFault> {
        let fault = match name {
            "refused" => OpenFault::Refused,
            "in-use" => OpenFault::InUse,
            _ => match Vec::from_slice(self.alloc, name.as_bytes()) {
                Ok(name) => {
                    self.name = Some(name);
                    return Ok(());
                }
                Err(_) => OpenFault::Refused,
            },
        };
        self.refusal = Some(fault);
        Err(fault)
    }
}

impl Write for MemoryFile {
    ghost contents = { λ file. Some file.text.items };

    fn write(&mut self, bytes: &[u8]) -> io::Result<usize> {
        let count = self.most.min(bytes.len());
        match self.text.extend_from_slice(&bytes[..count]) {
            Ok(()) => Ok(count),
            Err(_) => Err(io::Error::from(io::ErrorKind::OutOfMemory)),
        }
    }

    fn flush(&mut self) -> io::Result<()> {
        Ok(())
    }
}
