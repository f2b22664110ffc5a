//! A session of the program: its arguments, its device, its run and its exit status.
#![tactic(auto)]

mod arguments;
mod command_line;
mod environment;
mod help;
mod refusal;
mod run_files;
mod sessions;
mod stop;
mod telling;

pub use arguments::options;
pub use command_line::Options;
pub use environment::{Arguments, read_words};
pub use help::VERSION;
pub use refusal::Refusal;
pub use run_files::{FileStop, RunFile};
pub use runs::{
    Answer, Command, Commands, Gate, Geometry, GeometryFault, Kind, NoGate, Op, Pass, Point,
    RunFault, RunFiles, TraceFault, TraceFaultKind, Volume, Watched, play, run, run_shared,
};
pub use sessions::session;
pub use stop::Stop;
pub use telling::tell;
pub use trace::{NamedFile, OpenFault};
