//! Laws on what a sign holds and shows after any list of events, forged datagrams among them, stated as functions with
//! nothing to run.

ghost use Rattle.std.specs.Prelude.{List};
ghost use Rattle.dms_world.specs.Event.{EventModel};
ghost use Rattle.dms_world.specs.World.{WorldModel, IsFresh};
ghost use Rattle.dms_world.specs.Backed.{CopiedDefaults, IsBacked};
ghost use Rattle.dms_world.specs.GoodRows.{OneRowIsValidating, DefaultsFit, ValidRowsWereGood};

/// At most one row is being validated.
pub fn one_row_is_validating()
    ensures { (world : WorldModel) (events : List EventModel) → IsFresh world → OneRowIsValidating world events }
{}

/// The copy of the defaults that belongs to what is shown was the sign's once.
pub fn copied_defaults()
    ensures { (world : WorldModel) (events : List EventModel) → IsFresh world → CopiedDefaults world events }
{}

/// The defaults stay in their ranges and name a font of the face, and so does the copy that belongs to what is shown.
pub fn defaults_fit()
    ensures { (world : WorldModel) (events : List EventModel) → IsFresh world → DefaultsFit world events }
{}

/// Each row that is valid is a permanent one, or was good under the defaults of the moment at which an event settled
/// it.
pub fn rows_were_good()
    ensures { (world : WorldModel) (events : List EventModel) → IsFresh world → ValidRowsWereGood world events }
{}

/// What is shown is blank, or it is a message of a row that was valid: good under the copy of the defaults that was
/// made as it was put up, with a checksum that stands in the code of an activation that was accepted, or in one of the
/// sign's own codes.
pub fn backed()
    ensures { (world : WorldModel) (events : List EventModel) → IsFresh world → IsBacked world events }
{}
