ghost use Rattle.std.specs.{Prelude.◌≡◌, Prelude.◌≤◌, Prelude.vec_len, Prelude.IfOk, Prelude.IfErr, Prelude.IfSome, Prelude.OnOk, Io.KnownBytes.IsAtEnd};
ghost use Rattle.trace.specs.Loading.{ExplainsLoad, most_bytes};
ghost use Rattle.streams.specs.Watched.{failures_of, inner_of};

use crate::fault::{TraceFault, TraceFaultKind};
use std::alloc::Global;
use std::io::Read;
use streams::Watched;

/// The most bytes of a trace.
pub const MAX_TRACE_BYTES: usize = 268_435_456;

const PIECE_BYTES: usize = 16_384;

/// Reads a trace to its end. Any error of the reader, also `Interrupted`, ends it: no read is repeated.
pub fn load<R: Read>(alloc: Global, reader: &mut Watched<R>) -> Result<Vec<u8>, TraceFault>
    // All that the reader held, read to the end, with no read that failed.
    ensures bytes { IfOk result
        (λ text. IfSome (R.remaining (inner_of reader.old)) (λ held. text.items ≡ held)) }
    ensures end { OnOk result (IsAtEnd (R.remaining (inner_of reader.new))) }
    ensures within { IfOk result (λ text. vec_len text ≤ most_bytes) }
    ensures unfailed { OnOk result (failures_of reader.new ≡ failures_of reader.old) }

    // A refusal has line 0 and its reason.
    ensures line { IfErr result (λ fault. fault.line ≡ 0) }
    ensures why { IfErr result
        (λ fault. ExplainsLoad fault.kind (failures_of reader.old) (failures_of reader.new)
        (R.remaining (inner_of reader.old)) (R.remaining (inner_of reader.new))) }
{
    let mut text = Vec::new(alloc);
    let mut piece = [0u8; PIECE_BYTES];
    while text.len() <= MAX_TRACE_BYTES {
        let room = PIECE_BYTES.min(MAX_TRACE_BYTES + 1 - text.len());
        let Ok(count) = reader.read(&mut piece[..room]) else {
            return Err(TraceFault::whole(TraceFaultKind::Read));
        };
        if count == 0 {
            return Ok(text);
        }
        if text.extend_from_slice(&piece[..count]).is_err() {
            return Err(TraceFault::whole(TraceFaultKind::Memory));
        }
    }
    Err(TraceFault::whole(TraceFaultKind::Big))
}
