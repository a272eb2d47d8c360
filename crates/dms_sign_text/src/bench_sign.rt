//! The bench sign, on which scripts run that name no other.

ghost use Rattle.std.specs.Prelude.{◌≡◌, IfOk};
ghost use Rattle.dms_text.specs.Lines.{kept_lines};
ghost use Rattle.dms_sign_text.specs.Description.{Description, SpellsSign};
ghost use Rattle.dms_sign_text.specs.BenchSign.{bench_text};
ghost use Rattle.dms_sign_text.specs.Setups.{IsMade};

use crate::fault::DescriptionFault;
use crate::reader::description;
use crate::setup::Setup;
use std::alloc::{AllocError, Global};

/// The description of the bench sign.
pub const BENCH: &str = "size 23 14
communities public admin
rows 2 1
order high
has 1 0
defaults 0 9 5 5 1 3 2 30 0
first 1
permanent 42 - 0 0 100
font 1 height 7 space 1 line 1 version 0001
glyph 49 2 7554
glyph 65 5 7463f8c620
glyph 66 5 f463e8c7c0
glyph 91 3 f24938
glyph 93 3 e49278
font 2 height 5 space 1 line 1 version 0002
glyph 65 3 57da
end
";

/// The bench sign as it starts, and the number of the first request of its centre.
pub fn bench_setup(alloc: Global) -> Result<Setup, AllocError>
    ensures { IfOk result (λ setup. (it : Description) × SpellsSign (kept_lines bench_text) it × IsMade it setup) }
{
    let text = bench_text();
    match description(alloc, text) {
        Ok(setup) => Ok(setup),
        Err(DescriptionFault::Memory) => Err(AllocError),
        Err(DescriptionFault::Line(_)) => unreachable!(),
    }
}

/// The octets of the description.
#[tactic(auto, unfolding(crate::specs::BenchSign::bench_text))]
fn bench_text() -> &'static [u8]
    ensures { result.now ≡ bench_text }
{
    BENCH.as_bytes()
}
