ghost use Rattle.std.specs.Prelude.{◌+◌, ◌≤◌, vec_len};
ghost use Rattle.answers.specs.declared.line.TheConstants.{LINE_BYTES, PIECE_BYTES};

use text::Numbering;

/// The lines that wait to be written: the first bytes of a buffer, which is allocated once.
#[derive(Drop)]
pub struct Lines {
    pub(crate) buffer: Vec<u8>,
    pub(crate) used: usize,
    pub(crate) numbering: Numbering,
    // How many digits a page has.
    pub(crate) digits: usize,
    pub ghost within: { used ≤ vec_len buffer },
    pub ghost room: { PIECE_BYTES + LINE_BYTES + digits ≤ vec_len buffer },
}
