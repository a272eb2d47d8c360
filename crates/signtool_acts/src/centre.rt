//! The centre that the lines of a conversation are to.

ghost use Rattle.std.specs.Prelude.{◌≡◌, IfOk, IsOk, IsTrue};
ghost use Rattle.dms_centre.specs.State.{start};
ghost use Rattle.dms_centre.specs.CodeView.{settings_model};
ghost use Rattle.dms_codes.specs.Limits.{has_community_size};
ghost use Rattle.signtool_acts.specs.RestoredCentre.{settings_in};

use dms_centre::{Centre, Settings};
use dms_centre_lines::LiveCentre;
use dms_sign::laws::signs_are_kept;
use dms_sign_text::Setup;
use std::alloc::{AllocError, Global};

/// What the central system of a sign is made with: the sign's writing community, and its order.
pub(crate) fn settings_of(setup: &Setup) -> Settings<'_>
    ensures settings { settings_model result ≡ settings_in setup.now }
    ensures community { IsTrue (has_community_size result.community.now) }
{
    signs_are_kept(&setup.sign);
    Settings {
        community: setup.sign.writer(),
        order: setup.sign.order(),
    }
}

/// The centre of a sign, as it starts: it has the sign's writing community and its order, and the first number that was
/// described. It is always `Ok`: a sign's communities are a centre's, and no memory is taken.
pub fn live_centre(alloc: Global, setup: &Setup) -> Result<LiveCentre, AllocError>
    ensures party { IfOk result (λ party. party
        ≡ start (record { community = setup.now.sign.config.writer; order = setup.now.sign.table.order })
        setup.now.first) }
    ensures always { IsOk result }
{
    match Centre::new(alloc, settings_of(setup), setup.first) {
        Ok(centre) => Ok(LiveCentre::new(centre)),
        Err(_) => Err(AllocError),
    }
}
