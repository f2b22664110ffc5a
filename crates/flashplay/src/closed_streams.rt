use std::fs::{self, File, OpenOptions};

/// Keeps the numbers of the standard streams that are closed. The system gives a file the least free number, so a file of the run would
/// otherwise become the missing stream. What is kept fails as a closed stream does: the input can't be read, and the others can't be written.
#[derive(Drop)]
pub struct ClosedStreams {
    input: Option<File>,
    output: Option<File>,
    errors: Option<File>,
}

impl ClosedStreams {
    /// Keeps them, in the order of their numbers.
    pub fn keep(runtime: &HostRuntime) -> ClosedStreams {
        ClosedStreams {
            input: keep(runtime, "/dev/stdin", OpenOptions::new().write(true)),
            output: keep(runtime, "/dev/stdout", OpenOptions::new().read(true)),
            errors: keep(runtime, "/dev/stderr", OpenOptions::new().read(true)),
        }
    }
}

// Opens the null device in place of a stream that isn't there.
fn keep(runtime: &HostRuntime, stream: &str, options: &OpenOptions) -> Option<File> {
    match fs::metadata(runtime, stream) {
        Ok(_) => None,
        Err(_) => options.open(runtime, "/dev/null").ok(),
    }
}
