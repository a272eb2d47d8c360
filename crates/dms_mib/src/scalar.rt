//! The objects of a sign that have one instance, by their names in NTCIP 1203.

ghost use Rattle.std.specs.Prelude.{◌≡◌};
ghost use Rattle.dms_mib.specs.Names.{scalar_number};
ghost use Rattle.dms_mib.specs.Objects.{scalar_row};

use crate::objects::{Access, Syntax};

// made by tools/objects.py --code

/// An object that has one instance, in the order of names.
#[derive(Clone, Copy, Debug, PartialEq, Eq)]
pub enum Scalar {
    /// vmsSignHeightPixels: Rows of the matrix, in pixels
    SignHeightPixels,
    /// vmsSignWidthPixels: Columns of the matrix, in pixels
    SignWidthPixels,
    /// defaultBackgroundColor: The background of a page whose text names none: black 0, red 1, yellow 2, green 3, cyan
    /// 4, blue 5, magenta 6, white 7, orange 8, amber 9
    DefaultBackgroundColor,
    /// defaultForegroundColor: The colour of characters for which the text names none, with the numbers of
    /// defaultBackgroundColor
    DefaultForegroundColor,
    /// defaultFlashOn: How long flashing characters are lit, in tenths of a second
    DefaultFlashOn,
    /// defaultFlashOff: How long flashing characters are dark, in tenths of a second
    DefaultFlashOff,
    /// defaultFont: The number of the font of characters for which the text names none; a font that the sign has
    DefaultFont,
    /// defaultJustificationLine: Where characters stand in a line
    DefaultJustificationLine,
    /// defaultJustificationPage: Where lines stand on a page
    DefaultJustificationPage,
    /// defaultPageOnTime: How long a page is shown, in tenths of a second
    DefaultPageOnTime,
    /// defaultPageOffTime: How long nothing is shown after a page, in tenths of a second
    DefaultPageOffTime,
    /// dmsColorScheme: How colours are named: always colorClassic
    ColorScheme,
    /// dmsNumPermanentMsg: How many permanent messages the sign has
    NumPermanentMsg,
    /// dmsNumChangeableMsg: How many changeable messages are valid
    NumChangeableMsg,
    /// dmsMaxChangeableMsg: How many changeable messages there is room for
    MaxChangeableMsg,
    /// dmsFreeChangeableMemory: Octets of text for which changeable rows are not used: 512 a row
    FreeChangeableMemory,
    /// dmsNumVolatileMsg: How many volatile messages are valid
    NumVolatileMsg,
    /// dmsMaxVolatileMsg: How many volatile messages there is room for
    MaxVolatileMsg,
    /// dmsFreeVolatileMemory: Octets of text for which volatile rows are not used: 512 a row
    FreeVolatileMemory,
    /// dmsValidateMessageError: The verdict of the last validation, none at first
    ValidateMessageError,
    /// dmsActivateMessage: Written: the code of the message to show (duration, priority, memory type, number, checksum,
    /// address)
    ActivateMessage,
    /// dmsMessageTimeRemaining: Minutes for which the message is still shown, rounded up; 65535 is without end
    MessageTimeRemaining,
    /// dmsMsgTableSource: The code of the message that is shown
    MsgTableSource,
    /// dmsMsgRequesterID: The address of the one who activated the message that is shown
    MsgRequesterId,
    /// dmsMsgSourceMode: Why the message is shown: central, powerRecovery, commLoss, powerLoss or endDuration
    MsgSourceMode,
    /// dmsShortPowerRecoveryMessage: The message that is activated when power returns after a short loss
    ShortPowerRecoveryMessage,
    /// dmsLongPowerRecoveryMessage: The message that is activated when power returns after a long loss
    LongPowerRecoveryMessage,
    /// dmsShortPowerLossTime: Seconds up to which a loss of power is short, at first 0: none is
    ShortPowerLossTime,
    /// dmsCommunicationsLossMessage: The message that is activated when no datagram was answered for dmsTimeCommLoss
    CommunicationsLossMessage,
    /// dmsTimeCommLoss: Minutes without an answered datagram until dmsCommunicationsLossMessage is activated; at first
    /// 0, which is never
    TimeCommLoss,
    /// dmsPowerLossMessage: The message that is activated when power is lost
    PowerLossMessage,
    /// dmsEndDurationMessage: The message that is activated when the duration of another ends
    EndDurationMessage,
    /// dmsActivateMsgError: Why the last activation was refused; none where it was accepted
    ActivateMsgError,
    /// dmsMultiSyntaxError: The last fault of a text; none where there was none
    MultiSyntaxError,
    /// dmsMultiSyntaxErrorPosition: Where that fault stands: an offset in octets from the beginning of the text; 0
    /// where there was none
    MultiSyntaxErrorPosition,
    /// dmsActivateErrorMsgCode: The activation code that was last refused, at first twelve zeros; a success leaves it
    ActivateErrorMsgCode,
}

impl Scalar {
    /// The object's number below dms: its group, and its number there.
    pub fn number(self) -> (u8, u8)
        ensures { result ≡ scalar_number self }
    {
        match self {
            Scalar::SignHeightPixels => (2, 3),
            Scalar::SignWidthPixels => (2, 4),
            Scalar::DefaultBackgroundColor => (4, 1),
            Scalar::DefaultForegroundColor => (4, 2),
            Scalar::DefaultFlashOn => (4, 3),
            Scalar::DefaultFlashOff => (4, 4),
            Scalar::DefaultFont => (4, 5),
            Scalar::DefaultJustificationLine => (4, 6),
            Scalar::DefaultJustificationPage => (4, 7),
            Scalar::DefaultPageOnTime => (4, 8),
            Scalar::DefaultPageOffTime => (4, 9),
            Scalar::ColorScheme => (4, 11),
            Scalar::NumPermanentMsg => (5, 1),
            Scalar::NumChangeableMsg => (5, 2),
            Scalar::MaxChangeableMsg => (5, 3),
            Scalar::FreeChangeableMemory => (5, 4),
            Scalar::NumVolatileMsg => (5, 5),
            Scalar::MaxVolatileMsg => (5, 6),
            Scalar::FreeVolatileMemory => (5, 7),
            Scalar::ValidateMessageError => (5, 9),
            Scalar::ActivateMessage => (6, 3),
            Scalar::MessageTimeRemaining => (6, 4),
            Scalar::MsgTableSource => (6, 5),
            Scalar::MsgRequesterId => (6, 6),
            Scalar::MsgSourceMode => (6, 7),
            Scalar::ShortPowerRecoveryMessage => (6, 8),
            Scalar::LongPowerRecoveryMessage => (6, 9),
            Scalar::ShortPowerLossTime => (6, 10),
            Scalar::CommunicationsLossMessage => (6, 12),
            Scalar::TimeCommLoss => (6, 13),
            Scalar::PowerLossMessage => (6, 14),
            Scalar::EndDurationMessage => (6, 15),
            Scalar::ActivateMsgError => (6, 17),
            Scalar::MultiSyntaxError => (6, 18),
            Scalar::MultiSyntaxErrorPosition => (6, 19),
            Scalar::ActivateErrorMsgCode => (6, 24),
        }
    }

    /// What a manager may do with the object.
    #[inline]
    pub fn max_access(self) -> Access
        ensures { result ≡ (scalar_row self).access }
    {
        match self {
            Scalar::SignHeightPixels => Access::Read,
            Scalar::SignWidthPixels => Access::Read,
            Scalar::DefaultBackgroundColor => Access::Write,
            Scalar::DefaultForegroundColor => Access::Write,
            Scalar::DefaultFlashOn => Access::Write,
            Scalar::DefaultFlashOff => Access::Write,
            Scalar::DefaultFont => Access::Write,
            Scalar::DefaultJustificationLine => Access::Write,
            Scalar::DefaultJustificationPage => Access::Write,
            Scalar::DefaultPageOnTime => Access::Write,
            Scalar::DefaultPageOffTime => Access::Write,
            Scalar::ColorScheme => Access::Read,
            Scalar::NumPermanentMsg => Access::Read,
            Scalar::NumChangeableMsg => Access::Read,
            Scalar::MaxChangeableMsg => Access::Read,
            Scalar::FreeChangeableMemory => Access::Read,
            Scalar::NumVolatileMsg => Access::Read,
            Scalar::MaxVolatileMsg => Access::Read,
            Scalar::FreeVolatileMemory => Access::Read,
            Scalar::ValidateMessageError => Access::Read,
            Scalar::ActivateMessage => Access::Command,
            Scalar::MessageTimeRemaining => Access::Command,
            Scalar::MsgTableSource => Access::Read,
            Scalar::MsgRequesterId => Access::Read,
            Scalar::MsgSourceMode => Access::Read,
            Scalar::ShortPowerRecoveryMessage => Access::Write,
            Scalar::LongPowerRecoveryMessage => Access::Write,
            Scalar::ShortPowerLossTime => Access::Write,
            Scalar::CommunicationsLossMessage => Access::Write,
            Scalar::TimeCommLoss => Access::Write,
            Scalar::PowerLossMessage => Access::Write,
            Scalar::EndDurationMessage => Access::Write,
            Scalar::ActivateMsgError => Access::Read,
            Scalar::MultiSyntaxError => Access::Read,
            Scalar::MultiSyntaxErrorPosition => Access::Read,
            Scalar::ActivateErrorMsgCode => Access::Read,
        }
    }

    /// The type of the object's values, and their range.
    #[inline]
    pub fn value_syntax(self) -> Syntax
        ensures { result ≡ (scalar_row self).syntax }
    {
        match self {
            Scalar::SignHeightPixels => Syntax::Range(1, 64),
            Scalar::SignWidthPixels => Syntax::Range(1, 256),
            Scalar::DefaultBackgroundColor => Syntax::Range(0, 9),
            Scalar::DefaultForegroundColor => Syntax::Range(0, 9),
            Scalar::DefaultFlashOn => Syntax::Range(0, 255),
            Scalar::DefaultFlashOff => Syntax::Range(0, 255),
            Scalar::DefaultFont => Syntax::Range(1, 255),
            Scalar::DefaultJustificationLine => Syntax::Range(2, 4),
            Scalar::DefaultJustificationPage => Syntax::Range(2, 4),
            Scalar::DefaultPageOnTime => Syntax::Range(0, 255),
            Scalar::DefaultPageOffTime => Syntax::Range(0, 255),
            Scalar::ColorScheme => Syntax::Range(1, 4),
            Scalar::NumPermanentMsg => Syntax::Range(0, 65535),
            Scalar::NumChangeableMsg => Syntax::Range(0, 65535),
            Scalar::MaxChangeableMsg => Syntax::Range(0, 65535),
            Scalar::FreeChangeableMemory => Syntax::Whole,
            Scalar::NumVolatileMsg => Syntax::Range(0, 65535),
            Scalar::MaxVolatileMsg => Syntax::Range(0, 65535),
            Scalar::FreeVolatileMemory => Syntax::Whole,
            Scalar::ValidateMessageError => Syntax::Range(1, 5),
            Scalar::ActivateMessage => Syntax::Octets(12, 12),
            Scalar::MessageTimeRemaining => Syntax::Range(0, 65535),
            Scalar::MsgTableSource => Syntax::Octets(5, 5),
            Scalar::MsgRequesterId => Syntax::Address,
            Scalar::MsgSourceMode => Syntax::Range(1, 14),
            Scalar::ShortPowerRecoveryMessage => Syntax::Octets(5, 5),
            Scalar::LongPowerRecoveryMessage => Syntax::Octets(5, 5),
            Scalar::ShortPowerLossTime => Syntax::Range(0, 65535),
            Scalar::CommunicationsLossMessage => Syntax::Octets(5, 5),
            Scalar::TimeCommLoss => Syntax::Range(0, 65535),
            Scalar::PowerLossMessage => Syntax::Octets(5, 5),
            Scalar::EndDurationMessage => Syntax::Octets(5, 5),
            Scalar::ActivateMsgError => Syntax::Range(1, 8),
            Scalar::MultiSyntaxError => Syntax::Range(1, 15),
            Scalar::MultiSyntaxErrorPosition => Syntax::Range(0, 65535),
            Scalar::ActivateErrorMsgCode => Syntax::Octets(12, 12),
        }
    }
}

// the end of what is made
