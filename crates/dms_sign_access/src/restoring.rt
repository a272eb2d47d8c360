//! Why a saved state is not taken up by a sign.

ghost use Rattle.std.specs.Prelude.{◌≡◌};
ghost use Rattle.dms_sign_access.specs.RestoringTexts.{report_fault_text};

use crate::reports::ReportFault;
use dms_face::MultiFault;
use dms_table::ShownFault;
use std::error::Error;
use std::fmt;

/// Why a message is not taken up.
#[derive(Clone, Copy, Debug, PartialEq, Eq)]
pub enum MessageFault {
    /// There is no such message.
    Shown(ShownFault),
    /// The sign has no row of the name of its source.
    Source,
    /// It has a beacon, and the sign has none.
    Beacons,
    /// It has a pixel service, and the sign has none.
    PixelService,
    /// Its copy of the defaults does not fit the face.
    Defaults,
    /// Its text is not good under its copy of the defaults.
    Text(MultiFault),
}

/// Why the parts of a state are not taken up.
#[derive(Clone, Copy, Debug, PartialEq, Eq)]
pub enum StateFault {
    /// The defaults do not fit the face.
    Defaults,
    /// More seconds are silent than 65535 minutes have.
    Silence,
    /// What is shown.
    Shown(MessageFault),
    /// What was shown when the power was lost.
    Kept(MessageFault),
    /// No sign reports this.
    Reports(ReportFault),
    /// There is power where a loss of power put up what is shown, or none where something else did; or a loss of power
    /// put up what was kept.
    Power,
}

impl fmt::Display for MessageFault {
    ghost use Rattle.std.specs.Prelude.{Some};
    ghost use Rattle.dms_sign_access.specs.RestoringTexts.{message_fault_text};

    ghost output = { λ fault. Some (message_fault_text fault) };

    fn fmt<W: fmt::Write>(&self, f: &mut fmt::Formatter<W>) -> fmt::Result {
        match self {
            MessageFault::Shown(fault) => write!(f, "{fault}"),
            MessageFault::Source => f.write_str("the sign has no row of its source"),
            MessageFault::Beacons => f.write_str("the sign has no beacons"),
            MessageFault::PixelService => f.write_str("the sign has no pixel service"),
            MessageFault::Defaults => f.write_str("its defaults do not fit the face"),
            MessageFault::Text(fault) => write!(f, "{fault}"),
        }
    }
}

impl Error for MessageFault {}

impl fmt::Display for StateFault {
    ghost use Rattle.std.specs.Prelude.{Some};
    ghost use Rattle.dms_sign_access.specs.RestoringTexts.{state_fault_text};

    ghost output = { λ fault. Some (state_fault_text fault) };

    fn fmt<W: fmt::Write>(&self, f: &mut fmt::Formatter<W>) -> fmt::Result {
        match self {
            StateFault::Defaults => f.write_str("the defaults do not fit the face"),
            StateFault::Silence => f.write_str("too many seconds were silent"),
            StateFault::Shown(fault) => write!(f, "what is shown: {fault}"),
            StateFault::Kept(fault) => write!(f, "what was kept: {fault}"),
            StateFault::Reports(fault) => f.write_str(report_fault_text(*fault)),
            StateFault::Power => f.write_str("another power than that of its messages"),
        }
    }
}

impl Error for StateFault {}

fn report_fault_text(fault: ReportFault) -> &'static str
    ensures { result.now ≡ report_fault_text fault }
{
    match fault {
        ReportFault::ValidateError => "no such error of a validation",
        ReportFault::ActivateError => "no such error of an activation",
        ReportFault::SyntaxError => "no such fault of a text",
        ReportFault::Position => "no such place of this fault",
    }
}
