ghost use Rattle.std.specs.Prelude.{◌≡◌, ◌≤◌, length};
ghost use Rattle.player.specs.Telling.{file_name, file_text};

use trace::OpenFault;

/// One of the files that a run writes in addition to its answers.
#[derive(Clone, Copy, Debug, PartialEq, Eq)]
pub enum RunFile {
    Wear,
    Collections,
}

/// Why a file of a run was not written.
#[derive(Clone, Copy, Debug, PartialEq, Eq)]
pub enum FileStop {
    /// It is the wear, and the run is by workers, which don't write it.
    NotWithWorkers,
    /// It could not be opened.
    NotOpened,
    /// It is the file of the trace, of the answers, or another file of the run.
    NotItsOwn,
    /// It could not be written.
    Failed,
}

impl RunFile {
    /// The name, as it is printed.
    pub fn name(self) -> &'static str
        ensures name { result.now ≡ file_name self }
        ensures short { length result.now ≤ 11 }
    {
        match self {
            RunFile::Wear => "wear",
            RunFile::Collections => "collections",
        }
    }
}

impl FileStop {
    ghost use Rattle.player.specs.Session.{stop_of_open};

    /// The reason, as it is printed after the file's name.
    pub fn text(self) -> &'static str
        ensures text { result.now ≡ file_text self }
        ensures short { length result.now ≤ 24 }
    {
        match self {
            FileStop::NotWithWorkers => ": not with workers",
            FileStop::NotOpened => ": not opened",
            FileStop::NotItsOwn => ": not a file of its own",
            FileStop::Failed => ": failed",
        }
    }

    // Why a file that was not opened is not written.
    pub(crate) fn of_open(fault: OpenFault) -> FileStop
        ensures { result ≡ stop_of_open fault }
    {
        match fault {
            OpenFault::Refused => FileStop::NotOpened,
            OpenFault::InUse => FileStop::NotItsOwn,
        }
    }
}
