//! The columns of the message table, by their names in NTCIP 1203.

ghost use Rattle.std.specs.Prelude.{◌≡◌};
ghost use Rattle.dms_mib.specs.declared.column.Column.{Column};
ghost use Rattle.dms_mib.specs.Names.{column_number};
ghost use Rattle.dms_mib.specs.Objects.{column_row};

use crate::objects::Access;

// made by tools/objects.py --code

/// A column of dmsMessageTable.
#[derive(Clone, Copy, Debug, PartialEq, Eq)]
pub enum Column {
    /// dmsMessageMemoryType: The kind of memory of the row: permanent 2, changeable 3, volatile 4, currentBuffer 5,
    /// blank 7
    MemoryType,
    /// dmsMessageNumber: The number of the row in its kind of memory
    Number,
    /// dmsMessageMultiString: The text of the message, in MULTI
    MultiString,
    /// dmsMessageOwner: Who the message is from
    Owner,
    /// dmsMessageCRC: The checksum of text, beacon and pixel service while the row is valid, else 0; in the sign's
    /// order of its two octets
    Crc,
    /// dmsMessageBeacon: 1 where the beacon is to flash
    Beacon,
    /// dmsMessagePixelService: 1 where pixel service is allowed while the message is shown
    PixelService,
    /// dmsMessageRunTimePriority: The priority that another activation has to reach while this message is shown
    RunTimePriority,
    /// dmsMessageStatus: The status of the row
    Status,
}

impl Column {
    /// The column's number in dmsMessageEntry, 1 to 9.
    pub fn number(self) -> u8
        ensures { result ≡ column_number self }
    {
        match self {
            Column::MemoryType => 1,
            Column::Number => 2,
            Column::MultiString => 3,
            Column::Owner => 4,
            Column::Crc => 5,
            Column::Beacon => 6,
            Column::PixelService => 7,
            Column::RunTimePriority => 8,
            Column::Status => 9,
        }
    }

    /// What a manager may do with the column's cells, in the rows that can be written.
    #[inline]
    pub fn max_access(self) -> Access
        ensures { result ≡ (column_row self).access }
    {
        match self {
            Column::MemoryType => Access::Read,
            Column::Number => Access::Read,
            Column::MultiString => Access::Write,
            Column::Owner => Access::Write,
            Column::Crc => Access::Read,
            Column::Beacon => Access::Write,
            Column::PixelService => Access::Write,
            Column::RunTimePriority => Access::Write,
            Column::Status => Access::Command,
        }
    }
}

// the end of what is made
