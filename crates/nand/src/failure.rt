use durable::MountFault;
use thiserror::Error;

/// Why a call didn't succeed.
#[derive(Clone, Copy, Debug, PartialEq, Eq, Error)]
pub enum Failure {
    /// The power is gone. Open the chip again once it is back.
    #[error("the power is gone")]
    PowerGone,
    /// A command has failed, and no block is in reserve, or the next one has sectors. Open the chip again.
    #[error("a command has failed")]
    Failed,
    /// An earlier call has failed, and the chip wasn't opened again.
    #[error("the chip has to be opened again")]
    Closed,
    /// The numbers of versions have run out.
    #[error("the numbers of versions have run out")]
    NoNumber,
    /// The sector is written already.
    #[error("the sector is written")]
    Written,
    /// The sector's page can't be read any more.
    #[error("the sector's page can't be read")]
    Lost,
}

/// Why a chip was not opened.
#[derive(Clone, Copy, Debug, PartialEq, Eq, Error)]
pub enum OpenFailure {
    /// What stands in the flash can't be mounted, or there is too little memory.
    #[error("{0}")]
    Refused(MountFault),
    /// The power is gone.
    #[error("the power is gone")]
    PowerGone,
}
