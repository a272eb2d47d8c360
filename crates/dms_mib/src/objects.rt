//! The table of the objects of a sign (NTCIP 1203, each object's SYNTAX and ACCESS, narrowed to this profile).

ghost use Rattle.std.specs.Prelude.{◌≡◌};
ghost use Rattle.dms_mib.specs.Objects.{is_written};

use crate::column::Column;
use crate::scalar::Scalar;
use dms_codes::{MAX_OWNER, MAX_TEXT};

/// A node below dms that objects stand under.
#[derive(Clone, Copy, Debug, PartialEq, Eq)]
pub enum Group {
    VmsCfg,
    MultiCfg,
    DmsMessage,
    /// The columns of dmsMessageTable.
    DmsMessageEntry,
    SignControl,
}

/// What a manager may do with an object.
#[derive(Clone, Copy, Debug, PartialEq, Eq)]
pub enum Access {
    /// It is read.
    Read,
    /// It is read, and a SET assigns it.
    Write,
    /// It is read, and a SET commands something by it.
    Command,
}

impl Access {
    /// Whether a SET may name the object.
    #[inline]
    pub fn is_written(self) -> bool
        ensures { result ≡ is_written self }
    {
        !matches!(self, Access::Read)
    }
}

/// The type of an object's values, and their range.
#[derive(Clone, Copy, Debug, PartialEq, Eq)]
pub enum Syntax {
    /// An INTEGER.
    Whole,
    /// An INTEGER from the first to the second.
    Range(u16, u16),
    /// An INTEGER, read from the first to the second, and written from the third to the fourth.
    Asks(u16, u16, u16, u16),
    /// An OCTET STRING of so many octets, from the first to the second.
    Octets(u16, u16),
    /// An IpAddress.
    Address,
}

/// The instances of an object.
#[derive(Clone, Copy, Debug, PartialEq, Eq)]
pub enum Instances {
    /// The instance 0 alone.
    One(Scalar),
    /// One for each row of dmsMessageTable. Only those of changeable and volatile rows are written.
    EachRow(Column),
}

/// An object of the table.
#[derive(Clone, Copy, Debug, PartialEq, Eq)]
pub struct Object {
    pub group: Group,
    /// Its number under the group's node.
    pub number: u8,
    pub access: Access,
    pub syntax: Syntax,
    pub instances: Instances,
}

// made by tools/objects.py --code

/// Each object with the name that the MIB has, in the order of names.
pub const OBJECTS: [(&str, Object); 45] = [
    (
        "vmsSignHeightPixels",
        Object {
            group: Group::VmsCfg,
            number: 3,
            access: Access::Read,
            syntax: Syntax::Range(1, 64),
            instances: Instances::One(Scalar::SignHeightPixels),
        },
    ),
    (
        "vmsSignWidthPixels",
        Object {
            group: Group::VmsCfg,
            number: 4,
            access: Access::Read,
            syntax: Syntax::Range(1, 256),
            instances: Instances::One(Scalar::SignWidthPixels),
        },
    ),
    (
        "defaultBackgroundColor",
        Object {
            group: Group::MultiCfg,
            number: 1,
            access: Access::Write,
            syntax: Syntax::Range(0, 9),
            instances: Instances::One(Scalar::DefaultBackgroundColor),
        },
    ),
    (
        "defaultForegroundColor",
        Object {
            group: Group::MultiCfg,
            number: 2,
            access: Access::Write,
            syntax: Syntax::Range(0, 9),
            instances: Instances::One(Scalar::DefaultForegroundColor),
        },
    ),
    (
        "defaultFlashOn",
        Object {
            group: Group::MultiCfg,
            number: 3,
            access: Access::Write,
            syntax: Syntax::Range(0, 255),
            instances: Instances::One(Scalar::DefaultFlashOn),
        },
    ),
    (
        "defaultFlashOff",
        Object {
            group: Group::MultiCfg,
            number: 4,
            access: Access::Write,
            syntax: Syntax::Range(0, 255),
            instances: Instances::One(Scalar::DefaultFlashOff),
        },
    ),
    (
        "defaultFont",
        Object {
            group: Group::MultiCfg,
            number: 5,
            access: Access::Write,
            syntax: Syntax::Range(1, 255),
            instances: Instances::One(Scalar::DefaultFont),
        },
    ),
    (
        "defaultJustificationLine",
        Object {
            group: Group::MultiCfg,
            number: 6,
            access: Access::Write,
            syntax: Syntax::Range(2, 4),
            instances: Instances::One(Scalar::DefaultJustificationLine),
        },
    ),
    (
        "defaultJustificationPage",
        Object {
            group: Group::MultiCfg,
            number: 7,
            access: Access::Write,
            syntax: Syntax::Range(2, 4),
            instances: Instances::One(Scalar::DefaultJustificationPage),
        },
    ),
    (
        "defaultPageOnTime",
        Object {
            group: Group::MultiCfg,
            number: 8,
            access: Access::Write,
            syntax: Syntax::Range(0, 255),
            instances: Instances::One(Scalar::DefaultPageOnTime),
        },
    ),
    (
        "defaultPageOffTime",
        Object {
            group: Group::MultiCfg,
            number: 9,
            access: Access::Write,
            syntax: Syntax::Range(0, 255),
            instances: Instances::One(Scalar::DefaultPageOffTime),
        },
    ),
    (
        "dmsColorScheme",
        Object {
            group: Group::MultiCfg,
            number: 11,
            access: Access::Read,
            syntax: Syntax::Range(1, 4),
            instances: Instances::One(Scalar::ColorScheme),
        },
    ),
    (
        "dmsNumPermanentMsg",
        Object {
            group: Group::DmsMessage,
            number: 1,
            access: Access::Read,
            syntax: Syntax::Range(0, 65535),
            instances: Instances::One(Scalar::NumPermanentMsg),
        },
    ),
    (
        "dmsNumChangeableMsg",
        Object {
            group: Group::DmsMessage,
            number: 2,
            access: Access::Read,
            syntax: Syntax::Range(0, 65535),
            instances: Instances::One(Scalar::NumChangeableMsg),
        },
    ),
    (
        "dmsMaxChangeableMsg",
        Object {
            group: Group::DmsMessage,
            number: 3,
            access: Access::Read,
            syntax: Syntax::Range(0, 65535),
            instances: Instances::One(Scalar::MaxChangeableMsg),
        },
    ),
    (
        "dmsFreeChangeableMemory",
        Object {
            group: Group::DmsMessage,
            number: 4,
            access: Access::Read,
            syntax: Syntax::Whole,
            instances: Instances::One(Scalar::FreeChangeableMemory),
        },
    ),
    (
        "dmsNumVolatileMsg",
        Object {
            group: Group::DmsMessage,
            number: 5,
            access: Access::Read,
            syntax: Syntax::Range(0, 65535),
            instances: Instances::One(Scalar::NumVolatileMsg),
        },
    ),
    (
        "dmsMaxVolatileMsg",
        Object {
            group: Group::DmsMessage,
            number: 6,
            access: Access::Read,
            syntax: Syntax::Range(0, 65535),
            instances: Instances::One(Scalar::MaxVolatileMsg),
        },
    ),
    (
        "dmsFreeVolatileMemory",
        Object {
            group: Group::DmsMessage,
            number: 7,
            access: Access::Read,
            syntax: Syntax::Whole,
            instances: Instances::One(Scalar::FreeVolatileMemory),
        },
    ),
    (
        "dmsMessageMemoryType",
        Object {
            group: Group::DmsMessageEntry,
            number: 1,
            access: Access::Read,
            syntax: Syntax::Range(2, 7),
            instances: Instances::EachRow(Column::MemoryType),
        },
    ),
    (
        "dmsMessageNumber",
        Object {
            group: Group::DmsMessageEntry,
            number: 2,
            access: Access::Read,
            syntax: Syntax::Range(1, 65535),
            instances: Instances::EachRow(Column::Number),
        },
    ),
    (
        "dmsMessageMultiString",
        Object {
            group: Group::DmsMessageEntry,
            number: 3,
            access: Access::Write,
            syntax: Syntax::Octets(0, MAX_TEXT as u16),
            instances: Instances::EachRow(Column::MultiString),
        },
    ),
    (
        "dmsMessageOwner",
        Object {
            group: Group::DmsMessageEntry,
            number: 4,
            access: Access::Write,
            syntax: Syntax::Octets(0, MAX_OWNER as u16),
            instances: Instances::EachRow(Column::Owner),
        },
    ),
    (
        "dmsMessageCRC",
        Object {
            group: Group::DmsMessageEntry,
            number: 5,
            access: Access::Read,
            syntax: Syntax::Range(0, 65535),
            instances: Instances::EachRow(Column::Crc),
        },
    ),
    (
        "dmsMessageBeacon",
        Object {
            group: Group::DmsMessageEntry,
            number: 6,
            access: Access::Write,
            syntax: Syntax::Range(0, 1),
            instances: Instances::EachRow(Column::Beacon),
        },
    ),
    (
        "dmsMessagePixelService",
        Object {
            group: Group::DmsMessageEntry,
            number: 7,
            access: Access::Write,
            syntax: Syntax::Range(0, 1),
            instances: Instances::EachRow(Column::PixelService),
        },
    ),
    (
        "dmsMessageRunTimePriority",
        Object {
            group: Group::DmsMessageEntry,
            number: 8,
            access: Access::Write,
            syntax: Syntax::Range(1, 255),
            instances: Instances::EachRow(Column::RunTimePriority),
        },
    ),
    (
        "dmsMessageStatus",
        Object {
            group: Group::DmsMessageEntry,
            number: 9,
            access: Access::Command,
            syntax: Syntax::Asks(1, 5, 6, 8),
            instances: Instances::EachRow(Column::Status),
        },
    ),
    (
        "dmsValidateMessageError",
        Object {
            group: Group::DmsMessage,
            number: 9,
            access: Access::Read,
            syntax: Syntax::Range(1, 5),
            instances: Instances::One(Scalar::ValidateMessageError),
        },
    ),
    (
        "dmsActivateMessage",
        Object {
            group: Group::SignControl,
            number: 3,
            access: Access::Command,
            syntax: Syntax::Octets(12, 12),
            instances: Instances::One(Scalar::ActivateMessage),
        },
    ),
    (
        "dmsMessageTimeRemaining",
        Object {
            group: Group::SignControl,
            number: 4,
            access: Access::Command,
            syntax: Syntax::Range(0, 65535),
            instances: Instances::One(Scalar::MessageTimeRemaining),
        },
    ),
    (
        "dmsMsgTableSource",
        Object {
            group: Group::SignControl,
            number: 5,
            access: Access::Read,
            syntax: Syntax::Octets(5, 5),
            instances: Instances::One(Scalar::MsgTableSource),
        },
    ),
    (
        "dmsMsgRequesterID",
        Object {
            group: Group::SignControl,
            number: 6,
            access: Access::Read,
            syntax: Syntax::Address,
            instances: Instances::One(Scalar::MsgRequesterId),
        },
    ),
    (
        "dmsMsgSourceMode",
        Object {
            group: Group::SignControl,
            number: 7,
            access: Access::Read,
            syntax: Syntax::Range(1, 14),
            instances: Instances::One(Scalar::MsgSourceMode),
        },
    ),
    (
        "dmsShortPowerRecoveryMessage",
        Object {
            group: Group::SignControl,
            number: 8,
            access: Access::Write,
            syntax: Syntax::Octets(5, 5),
            instances: Instances::One(Scalar::ShortPowerRecoveryMessage),
        },
    ),
    (
        "dmsLongPowerRecoveryMessage",
        Object {
            group: Group::SignControl,
            number: 9,
            access: Access::Write,
            syntax: Syntax::Octets(5, 5),
            instances: Instances::One(Scalar::LongPowerRecoveryMessage),
        },
    ),
    (
        "dmsShortPowerLossTime",
        Object {
            group: Group::SignControl,
            number: 10,
            access: Access::Write,
            syntax: Syntax::Range(0, 65535),
            instances: Instances::One(Scalar::ShortPowerLossTime),
        },
    ),
    (
        "dmsCommunicationsLossMessage",
        Object {
            group: Group::SignControl,
            number: 12,
            access: Access::Write,
            syntax: Syntax::Octets(5, 5),
            instances: Instances::One(Scalar::CommunicationsLossMessage),
        },
    ),
    (
        "dmsTimeCommLoss",
        Object {
            group: Group::SignControl,
            number: 13,
            access: Access::Write,
            syntax: Syntax::Range(0, 65535),
            instances: Instances::One(Scalar::TimeCommLoss),
        },
    ),
    (
        "dmsPowerLossMessage",
        Object {
            group: Group::SignControl,
            number: 14,
            access: Access::Write,
            syntax: Syntax::Octets(5, 5),
            instances: Instances::One(Scalar::PowerLossMessage),
        },
    ),
    (
        "dmsEndDurationMessage",
        Object {
            group: Group::SignControl,
            number: 15,
            access: Access::Write,
            syntax: Syntax::Octets(5, 5),
            instances: Instances::One(Scalar::EndDurationMessage),
        },
    ),
    (
        "dmsActivateMsgError",
        Object {
            group: Group::SignControl,
            number: 17,
            access: Access::Read,
            syntax: Syntax::Range(1, 8),
            instances: Instances::One(Scalar::ActivateMsgError),
        },
    ),
    (
        "dmsMultiSyntaxError",
        Object {
            group: Group::SignControl,
            number: 18,
            access: Access::Read,
            syntax: Syntax::Range(1, 15),
            instances: Instances::One(Scalar::MultiSyntaxError),
        },
    ),
    (
        "dmsMultiSyntaxErrorPosition",
        Object {
            group: Group::SignControl,
            number: 19,
            access: Access::Read,
            syntax: Syntax::Range(0, 65535),
            instances: Instances::One(Scalar::MultiSyntaxErrorPosition),
        },
    ),
    (
        "dmsActivateErrorMsgCode",
        Object {
            group: Group::SignControl,
            number: 24,
            access: Access::Read,
            syntax: Syntax::Octets(12, 12),
            instances: Instances::One(Scalar::ActivateErrorMsgCode),
        },
    ),
];

// the end of what is made
