//! The operator's commands.

ghost use Rattle.std.specs.Prelude.{◌≡◌};
ghost use Rattle.dms_codes.specs.Codes.{IsActivation};
ghost use Rattle.dms_centre_jobs.specs.Commands.{IsCommand, is_good, job_of};
ghost use Rattle.dms_centre_jobs.specs.CodeView.{command_model};
ghost use Rattle.dms_centre_jobs.specs.PublicationView.{parts_model};

use crate::publication::{Attributes, Publication, Terms};
use crate::step::Step;
use dms_codes::{Activation, RowId};

/// The highest number of a blank message.
const LAST_BLANK: u16 = 255;

/// A command of an operator.
#[derive(Clone, Copy, Debug)]
pub enum Command<'a> {
    /// To write a message into a row, and to activate it.
    Publish {
        /// The type of memory: changeable (3) or volatile (4).
        memory: u8,
        /// The row's number there, from 1.
        number: u16,
        /// A MULTI text, of at most `MAX_TEXT` octets.
        text: &'a [u8],
        /// Who the message is from, in at most `MAX_OWNER` octets.
        owner: &'a [u8],
        /// 1 with the sign's beacons, else 0.
        beacon: u8,
        /// 1 with the sign's pixel service, else 0.
        pixel: u8,
        /// The message's priority while it is shown, from 1.
        run_priority: u8,
        /// How long it is shown; 65535 is without end.
        minutes: u16,
        /// The priority with which it is activated.
        priority: u8,
        /// The network address of the one who puts it up.
        address: [u8; 4],
    },
    /// To activate a blank message.
    Blank {
        /// Its number, 1 to 255.
        number: u16,
        /// How long it is shown; 65535 is without end.
        minutes: u16,
        /// The priority with which it is activated.
        priority: u8,
        /// The network address of the one who puts it up.
        address: [u8; 4],
    },
    /// To activate a message that the sign has: the sign judges the code.
    Activate(Activation),
}

/// A command by its parts.
#[derive(Clone, Copy, Debug)]
pub(crate) enum CommandParts<'a> {
    /// To write a message into a row, and to activate it.
    Publish(Publication<'a>),
    /// To activate the blank message of a number.
    Blank(u16, Terms),
    /// To activate a message that the sign has.
    Activate(Activation),
}

impl<'a> Command<'a> {
    /// Its parts.
    pub(crate) fn parts(&self) -> CommandParts<'a>
        ensures { parts_model result ≡ command_model self.now }
    {
        match *self {
            Command::Publish {
                memory,
                number,
                text,
                owner,
                beacon,
                pixel,
                run_priority,
                minutes,
                priority,
                address,
            } => CommandParts::Publish(Publication {
                row: RowId { memory, number },
                text,
                owner,
                attributes: Attributes {
                    beacon,
                    pixel,
                    run_priority,
                },
                terms: Terms {
                    minutes,
                    priority,
                    address,
                },
            }),
            Command::Blank {
                number,
                minutes,
                priority,
                address,
            } => {
                let terms = Terms {
                    minutes,
                    priority,
                    address,
                };
                CommandParts::Blank(number, terms)
            }
            Command::Activate(code) => CommandParts::Activate(code),
        }
    }

    /// Each value of a command is in the range of its type. There is nothing to run.
    pub fn has_ranges(&self)
        ensures { IsCommand (command_model self.now) }
    {
        match self.parts() {
            CommandParts::Publish(publication) => publication.has_ranges(),
            CommandParts::Blank(number, terms) => code_has_ranges(terms.blank_code(number)),
            CommandParts::Activate(code) => code_has_ranges(code),
        }
    }

    /// Whether the values of a message to be written, or of a blank message, are in their ranges.
    pub fn is_good(&self) -> bool
        ensures { result ≡ is_good (command_model self.now) }
    {
        match self.parts() {
            CommandParts::Publish(publication) => publication.is_good(),
            CommandParts::Blank(number, _) => number > 0 && number <= LAST_BLANK,
            CommandParts::Activate(_) => true,
        }
    }

    /// The step that its job begins with.
    pub fn first_step(&self) -> Step
        ensures { result ≡ (job_of (command_model self.now)).step }
    {
        match self {
            Command::Publish { .. } => Step::Opening,
            Command::Blank { .. } | Command::Activate(_) => Step::Activating,
        }
    }
}

impl<'a> From<Publication<'a>> for Command<'a> {
    ghost use Rattle.std.specs.Prelude.{◌≡◌};
    ghost use Rattle.dms_centre_jobs.specs.Commands.{Publish};
    ghost use Rattle.dms_centre_jobs.specs.CodeView.{command_model};
    ghost use Rattle.dms_centre_jobs.specs.PublicationView.{publication_model};

    fn from(publication: Publication<'a>) -> Command<'a>
        ensures { command_model result ≡ Publish (publication_model publication.entry) }
    {
        let Publication {
            row,
            text,
            owner,
            attributes,
            terms: Terms {
                minutes,
                priority,
                address,
            },
        } = publication;
        Command::Publish {
            memory: row.memory,
            number: row.number,
            text,
            owner,
            beacon: attributes.beacon,
            pixel: attributes.pixel,
            run_priority: attributes.run_priority,
            minutes,
            priority,
            address,
        }
    }
}

/// Each value of a code is in the range of its type.
fn code_has_ranges(code: Activation)
    ensures { IsActivation code }
{}
