ghost use Rattle.std.specs.{Prelude.◌≡◌, Prelude.All, Prelude.IfErr, Prelude.IfOk, Prelude.IfSome, Prelude.Ok, Prelude.OnOk, Io.KnownBytes.IsAtEnd};
ghost use Rattle.trace.specs.Trace.{commands_of};
ghost use Rattle.streams.specs.Watched.{failures_of, inner_of};
ghost use Rattle.answers.specs.{Outcome.ExplainsTrace, Answers.IsPlayable, Streams.over};

use geometry::Geometry;
use std::alloc::Global;
use std::io::Read;
use streams::Watched;
use trace::{Commands, TraceFault, load, parse_owned};

/// Reads a whole trace, and returns its commands for this device.
pub fn read_commands<R: Read>(
    alloc: Global,
    reader: &mut Watched<R>,
    geometry: &Geometry,
) -> Result<Commands, TraceFault>
    ensures end { OnOk result (IsAtEnd (R.remaining (inner_of reader.new))) }
    ensures unfailed { OnOk result (failures_of reader.new ≡ failures_of reader.old) }
    ensures commands { IfOk result
        (λ commands. IfSome (R.remaining (inner_of reader.old))
        (λ bytes. commands_of bytes geometry.now ≡ Ok commands)) }
    ensures playable { IfOk result (λ commands. All (IsPlayable geometry.now) commands) }
    ensures why { IfErr result
        (λ fault. ExplainsTrace fault geometry.now (over R.remaining reader.old reader.new)) }
{
    let text = load(alloc, reader)?;
    parse_owned(alloc, text, geometry)
}
