//! Laws over definitions alone, stated as functions with nothing to run: what holds of the central system under any
//! list of commands, datagrams of anyone, ticks and restarts.

ghost use Rattle.std.specs.Prelude.{ℕ, List};
ghost use Rattle.std.specs.List.{AllByRecursion};
ghost use Rattle.dms_centre_jobs.specs.Job.{SettingsModel};
ghost use Rattle.dms_centre_jobs.specs.Requests.{AreSettings};
ghost use Rattle.dms_centre.specs.History.{Input, IsInput, History, made, move_at, after_input, after_inputs};
ghost use Rattle.dms_centre_laws.specs.RequestNumbers.{AreRequests, NumbersRise, EqualNumbersMeanEqualOctets};
ghost use Rattle.dms_centre_laws.specs.RequestNumbers.{ThreeSendsAtMost, Sends};
ghost use Rattle.dms_centre_laws.specs.Numbered.{HistoryIsNumbered};
ghost use Rattle.dms_centre_laws.specs.Ledger.{LedgerMoves, LedgerIsSent, NumbersPutUpTheirCodes, CodesAreOrdered};

/// Each datagram that is sent spells a request of the machine, whose number is below the next one; no later datagram
/// has a lower number; and what goes out at an input went out before, or is a new request, which takes the next number.
pub fn numbers_rise()
    ensures requests { (settings : SettingsModel) (first : ℕ) (inputs : List Input) → AreSettings settings
        → AllByRecursion IsInput inputs
        → AreRequests settings (after_inputs (made settings first) inputs).state.next
        (after_inputs (made settings first) inputs).sent }
    ensures rise { (settings : SettingsModel) (first : ℕ) (inputs : List Input) → AreSettings settings
        → AllByRecursion IsInput inputs
        → NumbersRise (after_inputs (made settings first) inputs).sent }
    ensures next { (settings : SettingsModel) (first : ℕ) (inputs : List Input) (input : Input) → AreSettings settings
        → AllByRecursion IsInput inputs → IsInput input
        → Sends settings (after_inputs (made settings first) inputs).state.next
        (after_inputs (made settings first) inputs).sent
        (move_at (after_inputs (made settings first) inputs).state input) }
{}

/// Datagrams with one number have equal octets.
pub fn equal_numbers_mean_equal_octets()
    ensures { (settings : SettingsModel) (first : ℕ) (inputs : List Input) → AreSettings settings
        → AllByRecursion IsInput inputs
        → EqualNumbersMeanEqualOctets (after_inputs (made settings first) inputs).sent }
{}

/// At most three datagrams have one number.
pub fn three_sends_at_most()
    ensures { (settings : SettingsModel) (first : ℕ) (inputs : List Input) → AreSettings settings
        → AllByRecursion IsInput inputs
        → ThreeSendsAtMost (after_inputs (made settings first) inputs).sent }
{}

/// What the laws above rest on: it holds of the central system as it is made, and each input keeps it up.
pub fn numbers_are_kept()
    ensures made { (settings : SettingsModel) (first : ℕ) → AreSettings settings
        → HistoryIsNumbered (made settings first) }
    ensures input { (history : History) (input : Input) → HistoryIsNumbered history → IsInput input
        → HistoryIsNumbered (after_input history input) }
{}

/// An entry of the ledger, once made, keeps its place, its number and its code, and its outcome changes only from
/// Waiting: to Accepted and Refused at a reply to its number, to NoReply at a tick, to Unknown at a restart. At most
/// one entry is new at an input; it waits, and the request that goes out puts its code up.
pub fn ledger_is_kept()
    ensures { (settings : SettingsModel) (first : ℕ) (inputs : List Input) (input : Input) → AreSettings settings
        → AllByRecursion IsInput inputs → IsInput input
        → LedgerMoves settings (after_inputs (made settings first) inputs).state.next
        (after_inputs (made settings first) inputs).state.ledger
        input (move_at (after_inputs (made settings first) inputs).state input) }
{}

/// The entries' numbers rise, and the request of each was sent. Whatever was sent with an entry's number puts the
/// entry's code up.
pub fn entries_were_sent()
    ensures sent { (settings : SettingsModel) (first : ℕ) (inputs : List Input) → AreSettings settings
        → AllByRecursion IsInput inputs
        → LedgerIsSent settings (after_inputs (made settings first) inputs).state.next
        (after_inputs (made settings first) inputs).state.ledger (after_inputs (made settings first) inputs).sent }
    ensures codes { (settings : SettingsModel) (first : ℕ) (inputs : List Input) → AreSettings settings
        → AllByRecursion IsInput inputs
        → NumbersPutUpTheirCodes settings (after_inputs (made settings first) inputs).state.ledger
        (after_inputs (made settings first) inputs).sent }
{}

/// Each code of the ledger is that of a command that was taken; the code of a publication has the checksum of the
/// operator's message.
pub fn codes_are_ordered()
    ensures { (settings : SettingsModel) (first : ℕ) (inputs : List Input) → AreSettings settings
        → AllByRecursion IsInput inputs
        → CodesAreOrdered settings first inputs (after_inputs (made settings first) inputs).state.ledger }
{}
