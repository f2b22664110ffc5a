use player::{NamedFile, OpenFault};
use std::cell::Cell;
use std::fs::{self, File, Metadata, OpenOptions};
use std::io;
use std::io::Write;
use std::os::unix::fs::{FileTypeExt, MetadataExt};

/// The file of the run that was opened last, by its device and its number there.
pub type Place = Cell<Option<(u64, u64)>>;

/// A file that a run writes in addition to its answers. It is emptied when its first bytes are written.
#[derive(Drop)]
pub struct OutFile<'a> {
    runtime: &'a HostRuntime,
    // That of another file of the run, until this one is opened.
    other: &'a Place,
    file: Option<File>,
    // Whether it may contain bytes of another run.
    is_old: bool,
}

impl<'a> OutFile<'a> {
    /// A file that is not open.
    pub fn new(runtime: &'a HostRuntime, other: &'a Place) -> OutFile<'a> {
        OutFile {
            runtime,
            other,
            file: None,
            is_old: false,
        }
    }
}

impl NamedFile for OutFile<'_> {
    fn open(&mut self, name: &str) -> Result<(), OpenFault> {
        let (file, found) = open(self.runtime, name).map_err(|_| OpenFault::Refused)?;
        let place = Some((found.dev(), found.ino()));
        let is_shared = self.other.get() == place && !found.file_type().is_char_device();
        if is_shared || is_in_use(self.runtime, &found) {
            return Err(OpenFault::InUse);
        }
        self.other.set(place);
        self.file = Some(file);
        self.is_old = found.is_file();
        Ok(())
    }
}

impl Write for OutFile<'_> {
    fn write(&mut self, bytes: &[u8]) -> io::Result<usize> {
        match &mut self.file {
            Some(file) => {
                if self.is_old {
                    file.set_len(0)?;
                    self.is_old = false;
                }
                file.write(bytes)
            }
            None => Ok(0),
        }
    }

    fn flush(&mut self) -> io::Result<()> {
        Ok(())
    }
}

// Opens a file with its contents, or makes it.
fn open(runtime: &HostRuntime, name: &str) -> io::Result<(File, Metadata)> {
    let file = OpenOptions::new()
        .write(true)
        .create(true)
        .open(runtime, name)?;
    let found = file.metadata()?;
    Ok((file, found))
}

// Whether the file is one of the standard streams. A device may be both, and what goes to a pipe is kept
// whole; only the trace's own pipe would never end.
fn is_in_use(runtime: &HostRuntime, found: &Metadata) -> bool {
    let kind = found.file_type();
    if kind.is_char_device() {
        return false;
    }
    is_at(runtime, found, "/dev/stdin")
        || !kind.is_fifo()
            && (is_at(runtime, found, "/dev/stdout") || is_at(runtime, found, "/dev/stderr"))
}

// Whether the file is the one at this name.
fn is_at(runtime: &HostRuntime, found: &Metadata, name: &str) -> bool {
    match fs::metadata(runtime, name) {
        Ok(other) => other.dev() == found.dev() && other.ino() == found.ino(),
        Err(_) => false,
    }
}
