ghost use Rattle.std.specs.Prelude.{◌≡◌, ◌≢◌, ◌≤◌, drop, length};
ghost use Rattle.streams.specs.Watched.{failures_of, inner_of};
ghost use Rattle.answers.specs.{Delivery.IsUnderWay, Streams.WritesOut, Streams.over};

use std::io::Write;
use streams::Watched;

/// The writer failed: a call returned an error, or accepted no byte.
#[derive(Clone, Copy, Debug, PartialEq, Eq)]
pub struct OutputFailed;

/// Writes all of these bytes, with as many calls as the writer needs.
pub fn send<W: Write>(writer: &mut Watched<W>, bytes: &[u8]) -> Result<(), OutputFailed>
    ensures { WritesOut bytes.now (over W.contents writer.old writer.new) result }
{
    if send_some(writer, bytes) == bytes.len() {
        Ok(())
    } else {
        Err(OutputFailed)
    }
}

/// Writes these bytes until all are written or a call fails, and returns how many were written.
pub(crate) fn send_some<W: Write>(writer: &mut Watched<W>, bytes: &[u8]) -> usize
    ensures within { result ≤ length bytes.now }
    ensures moved { IsUnderWay (W.contents (inner_of writer.old))
        (W.contents (inner_of writer.new)) (drop result bytes.now) bytes.now }
    ensures unfailed { result ≡ length bytes.now → failures_of writer.new ≡ failures_of writer.old }
    ensures failed { result ≢ length bytes.now → failures_of writer.new ≢ failures_of writer.old }
{
    let mut sent = 0;
    while sent < bytes.len() {
        let Ok(taken) = writer.write(&bytes[sent..]) else {
            return sent;
        };
        if taken == 0 {
            return sent;
        }
        sent += taken;
    }
    sent
}
