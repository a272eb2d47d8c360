//! All that a reader gives.

ghost use Rattle.std.specs.Prelude.{◌≡◌, ◌≢◌, ◌+◌, ◌≤◌, ◌<◌, length, IfOk, OnErr, IfSome, Err};
ghost use Rattle.dms_text_streams.specs.Calls.{one_more};
ghost use Rattle.dms_text_streams.specs.Lines.{TakesAtMost, longest_piece};
ghost use Rattle.dms_text_streams.specs.declared.fault.InputFault.TheVariants as faults;

use crate::fault::InputFault;
use crate::source::Source;
use std::alloc::Global;

/// The octets that one call asks for.
const PIECE: usize = 4096;

/// All octets that the reader gives, at most `limit`. It stops at the first octet past the limit, so also where the
/// reader never ends, and at the first call that fails. After an error what was read is lost: at most the limit and the
/// 4,096 octets of one call.
pub fn read_whole<S: Source>(
    alloc: Global,
    source: &mut S,
    limit: usize,
) -> Result<Vec<u8>, InputFault>
    ensures whole { IfOk result (λ octets. IfSome (S.remaining source.old) (λ all. octets.items ≡ all)) }
    ensures short { IfOk result (λ octets. length octets.items ≤ limit) }
    ensures lost { OnErr result
        (TakesAtMost (limit + longest_piece) (S.remaining source.old) (S.remaining source.new)) }
    ensures too_long { result ≡ Err faults.TooLong → IfSome (S.remaining source.old) (λ all. limit < length all) }
    ensures failed { result ≡ Err faults.Read → S.failed source.new ≡ one_more (S.failed source.old) }
    ensures unfailed { result ≢ Err faults.Read → S.failed source.new ≡ S.failed source.old }
{
    let mut octets = Vec::new(alloc);
    let mut piece = [0; PIECE];
    loop {
        let Ok(count) = source.read_some(&mut piece) else {
            return Err(InputFault::Read);
        };
        if count == 0 {
            return Ok(octets);
        }
        if count > limit - octets.len() {
            return Err(InputFault::TooLong);
        }
        if octets.extend_from_slice(&piece[..count]).is_err() {
            return Err(InputFault::Memory);
        }
    }
}
