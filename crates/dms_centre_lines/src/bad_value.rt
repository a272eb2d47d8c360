//! Which value of a command is out of its range.

ghost use Rattle.std.specs.Prelude.{◌≡◌};
ghost use Rattle.dms_centre_jobs.specs.CodeView.{command_model};
ghost use Rattle.dms_centre_lines.specs.BadValue.{bad_value};

use dms_centre::Command;
use dms_codes::memory::{CHANGEABLE, VOLATILE};
use dms_codes::{MAX_OWNER, MAX_TEXT};
use std::fmt;

/// A value of a command that has a range of its own.
#[derive(Clone, Copy)]
pub(crate) enum CommandValue {
    /// The row's type of memory.
    Memory,
    /// The row's number.
    Number,
    /// The message's text.
    Text,
    /// Who the message is from.
    Owner,
    /// Whether it is shown with the beacons.
    Beacon,
    /// Whether it is shown with the pixel service.
    Pixel,
    /// Its run-time priority.
    Run,
}

impl fmt::Display for CommandValue {
    ghost use Rattle.std.specs.Prelude.{Some};
    ghost use Rattle.dms_centre_lines.specs.BadValue.{value_text};

    ghost output = { λ value. Some (value_text value) };

    fn fmt<W: fmt::Write>(&self, f: &mut fmt::Formatter<W>) -> fmt::Result {
        f.write_str(match self {
            CommandValue::Memory => "MEMORY",
            CommandValue::Number => "NUMBER",
            CommandValue::Text => "TEXT",
            CommandValue::Owner => "OWNER",
            CommandValue::Beacon => "BEACON",
            CommandValue::Pixel => "PIXEL",
            CommandValue::Run => "RUN",
        })
    }
}

/// The first value of a command that is out of its range, where one is.
pub(crate) fn bad_value(command: &Command<'_>) -> CommandValue
    ensures { result ≡ bad_value (command_model command.now) }
{
    match *command {
        Command::Publish {
            memory,
            number,
            text,
            owner,
            beacon,
            pixel,
            ..
        } => {
            if memory != CHANGEABLE && memory != VOLATILE {
                CommandValue::Memory
            } else if number == 0 {
                CommandValue::Number
            } else if text.len() > MAX_TEXT {
                CommandValue::Text
            } else if owner.len() > MAX_OWNER {
                CommandValue::Owner
            } else if beacon > 1 {
                CommandValue::Beacon
            } else if pixel > 1 {
                CommandValue::Pixel
            } else {
                CommandValue::Run
            }
        }
        Command::Blank { .. } | Command::Activate(_) => CommandValue::Number,
    }
}
