//! A mount under way behind a handle.
ghost use Rattle.std.specs.Prelude.{◌≡◌, ◌≢◌, Option, true, Some, None, IfSome, nat_eq};
ghost use Rattle.durable.specs.Mounting.{next_in};
ghost use Rattle.durable_exports.specs.declared.codes.TheConstants.{DONE, OTHER_DEVICE};
ghost use Rattle.durable_exports.specs.Calls.{note_code, Accepts, Refuses, IsNoted};

use crate::codes::{DONE, OTHER_DEVICE, OUT_OF_ORDER};
use durable::{Mount, Stamp};

// The code of a note of something that is no stamp.
pub(crate) fn refuse(mount: &Mount) -> u32
    ensures code { result ≡ note_code (next_in mount.now) true }
    ensures refused { result ≢ DONE }
{
    if mount.next_page().is_none() {
        return OUT_OF_ORDER;
    }
    OTHER_DEVICE
}

// Notes the next page's stamp.
pub(crate) fn note(mount: &mut Mount, stamp: Option<Stamp>) -> u32
    ensures code { result ≡ note_code (next_in mount.old) (nat_eq result OTHER_DEVICE) }
    ensures accepts { Accepts stamp result mount.old }
    ensures refuses { Refuses stamp result mount.old }
    ensures noted { result ≡ DONE → IsNoted stamp mount.old mount.new }
    ensures same { result ≢ DONE → mount.new ≡ mount.old }
{
    if mount.next_page().is_none() {
        return OUT_OF_ORDER;
    }
    match mount.note(stamp) {
        Ok(()) => DONE,
        Err(_) => OTHER_DEVICE,
    }
}
