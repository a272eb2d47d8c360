//! A job: what is to be activated, and how far it is.

ghost use Rattle.std.specs.Prelude.{◌≡◌, ◌≤◌, ◌∷◌, [], true, length, option_map};
ghost use Rattle.dms_codes.specs.Checksum.{message_checksum};
ghost use Rattle.dms_centre_jobs.specs.Job.{Publishing, Showing};
ghost use Rattle.dms_centre_jobs.specs.Steps.{code_of, row_of};
ghost use Rattle.dms_centre_jobs.specs.Commands.{blank_code, is_good, is_publishable, job_of, showing};
ghost use Rattle.dms_centre_jobs.specs.Requests.{IsWork};
ghost use Rattle.dms_centre_jobs.specs.CodeView.{command_model, job_model};
ghost use Rattle.dms_centre_jobs.specs.JobView.{HasItsChecksum};
ghost use Rattle.dms_centre_jobs.specs.PublicationView.{publication_model, publication_in};

use crate::command::{Command, CommandParts};
use crate::kept::Kept;
use crate::publication::{Attributes, Publication, Terms};
use crate::step::Step;
use dms_codes::{Activation, MAX_OWNER, MAX_TEXT, MessageId, RowId, crc};
use std::marker::Model;

/// The fields of a row that is written.
#[derive(Drop)]
pub(crate) struct WrittenRowFields {
    pub(crate) text: Kept<MAX_TEXT>,
    pub(crate) owner: Kept<MAX_OWNER>,
    pub(crate) attributes: Attributes,
}

/// What a job is to activate: a message that it writes first, or one that the sign has. A contract sees the work of the
/// definitions.
#[derive(Drop)]
pub struct Work {
    /// Whether the message is written first.
    pub(crate) publishes: bool,
    /// The code that puts it up; of a message that is written it lacks the checksum.
    code: Activation,
    /// Of no meaning where nothing is written.
    pub(crate) fields: WrittenRowFields,
    /// The checksum of the fields, once it was computed.
    checksum: Option<u16>,
}

impl Model for Work {
    ghost use Rattle.dms_centre_jobs.specs.Job as models;
    ghost use Rattle.dms_centre_jobs.specs.JobView.{HasItsChecksum, work_model};

    ghost Value = { models.Work };

    ghost view = { λ w. work_model w.publishes w.code w.fields };

    ghost invariant = { λ w. HasItsChecksum w.checksum w.fields };
}

/// A job: what is to be activated, and how far it is.
#[derive(Drop)]
pub struct Job {
    /// What it is to activate.
    pub work: Work,
    /// The step that it is on.
    pub step: Step,
    /// How many replies said that the row is still being validated.
    pub polls: u8,
}

impl WrittenRowFields {
    /// Their checksum: the stored one, or else it is computed.
    fn checksum(&self, stored: Option<u16>) -> u16
        requires { HasItsChecksum stored self.now }
        ensures { result ≡ message_checksum self.now.text.items self.now.attributes.beacon self.now.attributes.pixel }
    {
        match stored {
            Some(checksum) => checksum,
            None => crc(
                self.text.as_slice(),
                self.attributes.beacon,
                self.attributes.pixel,
            ),
        }
    }
}

impl Work {
    /// A message that the sign has, under the code that puts it up.
    fn showing(code: Activation) -> Work
        ensures { result ≡ Showing code }
    {
        Work {
            publishes: false,
            code,
            fields: WrittenRowFields {
                text: Kept::new(),
                owner: Kept::new(),
                attributes: Attributes {
                    beacon: 0,
                    pixel: 0,
                    run_priority: 0,
                },
            },
            checksum: None,
        }
    }

    /// The code that puts it up.
    pub fn code(&self) -> Activation
        ensures { result ≡ code_of self.now }
    {
        let mut code = self.code;
        if self.publishes {
            code.id.crc = self.fields.checksum(self.checksum);
        }
        code
    }

    /// Stores the checksum of the fields, so that it is computed once a job.
    pub fn store_checksum(&mut self)
        ensures { self.new ≡ self.old }
    {
        self.checksum = Some(self.fields.checksum(self.checksum));
    }

    /// The row that the code names.
    #[tactic(auto, using(crate::proofs::JobLaws::row_named))]
    pub fn row(&self) -> RowId
        ensures { result ≡ row_of self.now }
    {
        self.code.id.row()
    }

    /// The message that is written first, if one is.
    pub fn publication(&self) -> Option<Publication<'_>>
        ensures { option_map publication_model result ≡ publication_in self.now }
    {
        if !self.publishes {
            return None;
        }
        let Activation {
            minutes,
            priority,
            id: MessageId { memory, number, .. },
            address,
        } = self.code;
        Some(Publication {
            row: RowId { memory, number },
            text: self.fields.text.as_slice(),
            owner: self.fields.owner.as_slice(),
            attributes: self.fields.attributes,
            terms: Terms {
                minutes,
                priority,
                address,
            },
        })
    }

    /// It becomes what a command is to activate.
    fn begin(&mut self, command: &Command<'_>)
        requires { is_good (command_model command.now) ≡ true }
        ensures { self.new ≡ (job_of (command_model command.now)).work }
    {
        match command.parts() {
            CommandParts::Publish(publication) => self.publish(&publication),
            CommandParts::Blank(number, terms) => self.show(terms.blank_code(number)),
            CommandParts::Activate(code) => self.show(code),
        }
    }

    /// It becomes a message that the sign has.
    fn show(&mut self, code: Activation)
        ensures { self.new ≡ Showing code }
    {
        self.publishes = false;
        self.code = code;
    }

    /// It becomes a message that is written first.
    fn publish(&mut self, publication: &Publication<'_>)
        requires { is_publishable (publication_model publication.now) ≡ true }
        ensures { self.new ≡ Publishing (publication_model publication.now) }
    {
        self.publishes = true;
        self.code = publication.terms.code(MessageId {
            memory: publication.row.memory,
            number: publication.row.number,
            crc: 0,
        });
        self.checksum = None;
        self.fields.text.replace(publication.text);
        self.fields.owner.replace(publication.owner);
        self.fields.attributes = publication.attributes;
    }
}

impl Job {
    /// A job that nothing has begun: blank message 0, which no command names.
    pub fn none() -> Job
        ensures { job_model result ≡ showing (blank_code 0 0 0 (0 ∷ 0 ∷ 0 ∷ 0 ∷ [])) }
    {
        let terms = Terms {
            minutes: 0,
            priority: 0,
            address: [0; 4],
        };
        Job {
            work: Work::showing(terms.blank_code(0)),
            step: Step::Activating,
            polls: 0,
        }
    }

    /// The job that a command begins, in the place of the last one. The numbers of the command must be in their ranges.
    pub fn begin(&mut self, command: &Command<'_>)
        requires { is_good (command_model command.now) ≡ true }
        ensures job { job_model self.new ≡ job_of (command_model command.now) }
        ensures work { IsWork self.new.work }
    {
        command.has_ranges();
        self.step = command.first_step();
        self.polls = 0;
        self.work.begin(command);
    }
}
