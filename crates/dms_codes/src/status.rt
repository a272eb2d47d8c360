//! The statuses of a row of the message table, and what may be asked of it (NTCIP 1203, dmsMessageStatus).

ghost use Rattle.std.specs.Prelude.{◌≡◌, Some, IfSome};
ghost use Rattle.dms_codes.specs.declared.status.Status.{Status};
ghost use Rattle.dms_codes.specs.declared.status.Ask.{Ask};
ghost use Rattle.dms_codes.specs.Status.{next_status, status_number, ask_number};

/// The status of a row: the values of dmsMessageStatus that are read.
#[derive(Clone, Copy, Debug, PartialEq, Eq)]
pub enum Status {
    /// The row is empty.
    NotUsed,
    /// Its fields can be written.
    Modifying,
    /// It is being validated.
    Validating,
    /// It can be activated.
    Valid,
    /// Its validation failed.
    Error,
}

/// What is asked of a row: the values of dmsMessageStatus that are written.
#[derive(Clone, Copy, Debug, PartialEq, Eq)]
pub enum Ask {
    /// To be modified.
    Modify,
    /// To be validated.
    Validate,
    /// To be emptied.
    NotUsed,
}

impl Status {
    /// The status's number in dmsMessageStatus.
    pub fn number(self) -> u8
        ensures { result ≡ status_number self }
    {
        match self {
            Status::NotUsed => 1,
            Status::Modifying => 2,
            Status::Validating => 3,
            Status::Valid => 4,
            Status::Error => 5,
        }
    }

    /// The status with a number.
    pub fn of_number(number: u8) -> Option<Status>
        ensures found { IfSome result (λ status. status_number status ≡ number) }
        ensures only { (status : Status) → status_number status ≡ number → result ≡ Some status }
    {
        match number {
            1 => Some(Status::NotUsed),
            2 => Some(Status::Modifying),
            3 => Some(Status::Validating),
            4 => Some(Status::Valid),
            5 => Some(Status::Error),
            _ => None,
        }
    }

    /// The status of a row that is asked this, where the table of statuses has it.
    pub fn next(self, ask: Ask) -> Option<Status>
        ensures { result ≡ next_status self ask }
    {
        match (self, ask) {
            (Status::Validating, _) | (Status::NotUsed, Ask::Validate) => None,
            (_, Ask::Modify) => Some(Status::Modifying),
            (_, Ask::Validate) => Some(Status::Validating),
            (_, Ask::NotUsed) => Some(Status::NotUsed),
        }
    }
}

impl Ask {
    /// Its number in dmsMessageStatus.
    pub fn number(self) -> u8
        ensures { result ≡ ask_number self }
    {
        match self {
            Ask::Modify => 6,
            Ask::Validate => 7,
            Ask::NotUsed => 8,
        }
    }

    /// What is asked by a number.
    pub fn of_number(number: u8) -> Option<Ask>
        ensures found { IfSome result (λ ask. ask_number ask ≡ number) }
        ensures only { (ask : Ask) → ask_number ask ≡ number → result ≡ Some ask }
    {
        match number {
            6 => Some(Ask::Modify),
            7 => Some(Ask::Validate),
            8 => Some(Ask::NotUsed),
            _ => None,
        }
    }
}
