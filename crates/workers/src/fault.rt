use std::alloc::AllocError;
use thiserror::Error;

/// Why a round was not played to its end.
#[derive(Clone, Copy, Debug, PartialEq, Eq, Error)]
pub enum RoundFault {
    #[error("memory: refused")]
    Memory,
    #[error("threads: refused")]
    Threads,
}

impl From<AllocError> for RoundFault {
    fn from(_refused: AllocError) -> RoundFault {
        RoundFault::Memory
    }
}
