//! All of some octets, written.

ghost use Rattle.std.specs.Prelude.{◌≡◌, OnOk, OnErr};
ghost use Rattle.std.specs.Io.KnownBytes.{Appends};
ghost use Rattle.dms_text_streams.specs.Calls.{one_more};
ghost use Rattle.dms_text_streams.specs.Prefixes.{AppendsPrefix};
ghost use Rattle.dms_text_streams.specs.Room.{IsWrittenWithinRoom};

use crate::failed::Failed;
use crate::sink::Sink;

/// Writes all of the octets, in as many calls as it takes. It stops at the first call that fails; a prefix of the
/// octets was written then. No call fails where there is room for the octets.
#[tactic(auto, using(crate::proofs::Written::calls))]
pub fn write_whole<W: Sink>(sink: &mut W, octets: &[u8]) -> Result<(), Failed>
    ensures whole { OnOk result (Appends (W.contents sink.old) (W.contents sink.new) octets.now) }
    ensures prefix { OnErr result (AppendsPrefix (W.contents sink.old) (W.contents sink.new) octets.now) }
    ensures unfailed { OnOk result (W.failed sink.new ≡ W.failed sink.old) }
    ensures failed { OnErr result (W.failed sink.new ≡ one_more (W.failed sink.old)) }
    ensures room { IsWrittenWithinRoom (W.room sink.old) (W.room sink.new) result octets.now }
{
    let mut rest = octets;
    while !rest.is_empty() {
        let Ok(count) = sink.write_some(rest) else {
            return Err(Failed);
        };
        if count == 0 {
            return Err(Failed);
        }
        rest = rest.split_at(count).1;
    }
    Ok(())
}
