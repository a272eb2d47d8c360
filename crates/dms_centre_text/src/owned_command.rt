//! Commands as they are read, which own their octets.

use dms_centre::{Attributes, Command, Publication, Terms};
use dms_codes::{Activation, RowId};

/// What an operator orders.
#[derive(Debug, Drop)]
pub enum OwnedCommand {
    /// A message is to be written and activated.
    Publish {
        /// The row that is written.
        row: RowId,
        /// A MULTI text.
        text: Vec<u8>,
        /// Who the message is from.
        owner: Vec<u8>,
        attributes: Attributes,
        terms: Terms,
    },
    /// A blank message is to be activated.
    Blank {
        /// Its number.
        number: u16,
        terms: Terms,
    },
    /// A message is to be activated which the sign has.
    Activate(Activation),
}

impl OwnedCommand {
    ghost use Rattle.std.specs.Prelude.{◌≡◌};
    ghost use Rattle.dms_centre_jobs.specs.CodeView.{command_model};
    ghost use Rattle.dms_centre_text.specs.CommandView.{owned_command_model};

    /// The command, which borrows the octets.
    pub fn lent(&self) -> Command<'_>
        ensures { command_model result ≡ owned_command_model self.now }
    {
        match self {
            OwnedCommand::Publish {
                row,
                text,
                owner,
                attributes,
                terms,
            } => Command::from(Publication {
                row: *row,
                text: text.as_slice(),
                owner: owner.as_slice(),
                attributes: *attributes,
                terms: *terms,
            }),
            OwnedCommand::Blank { number, terms } => {
                let address = terms.address;
                Command::Blank {
                    number: *number,
                    minutes: terms.minutes,
                    priority: terms.priority,
                    address,
                }
            }
            OwnedCommand::Activate(code) => Command::Activate(*code),
        }
    }
}
