//! The ledger, as lines of text.

ghost use Rattle.std.specs.Prelude.{◌≡◌, ◌++◌, ℕ, codes, flat_map};
ghost use Rattle.dms_text_filling.specs.Filling.{Puts};
ghost use Rattle.dms_text_forms.specs.LineText.{code_text};
ghost use Rattle.dms_centre.specs.CodeView.{entry_model};
ghost use Rattle.dms_centre.specs.declared.ledger.Entry.{Entry};
ghost use Rattle.dms_centre.specs.Texts.{outcome_text};
ghost use Rattle.dms_centre_state.specs.CentreText.{ledger_line, ledger_lines};

use crate::saving::put_signed;
use dms_centre::{Centre, Entry, Outcome};
use dms_codes::{Activation, Order};
use dms_text_filling::{put_decimal, put_digits, put_text};
use indexmap::IndexMap;

/// Puts a line for each entry, in the order of the requests.
pub(crate) fn put_ledger(buffer: &mut [u8], place: usize, centre: &Centre) -> usize
    ensures { Puts (ledger_lines centre.now.state.settings.order centre.now.state.ledger)
        place buffer.old result buffer.new }
{
    put_entries(buffer, place, centre.order(), centre.ledger())
}

fn put_entries(
    buffer: &mut [u8],
    place: usize,
    order: Order,
    ledger: &IndexMap<u32, Entry>,
) -> usize
    ensures { Puts (flat_map (λ (entry : ℕ × Entry). ledger_line order (entry_model entry)) ledger.now.entries)
        place buffer.old result buffer.new }
{
    let mut end = place;
    for (number, entry) in ledger.iter() {
        end = put_entry(buffer, end, order, *number, entry);
    }
    end
}

fn put_entry(buffer: &mut [u8], place: usize, order: Order, number: u32, entry: &Entry) -> usize
    ensures { Puts (ledger_line order (entry_model (number, entry.now))) place buffer.old result buffer.new }
{
    let place = put_text(buffer, place, "ledger ");
    let place = put_decimal(buffer, place, number);
    let place = put_text(buffer, place, " ");
    let place = put_code(buffer, place, order, &entry.code);
    let place = put_text(buffer, place, " ");
    put_outcome(buffer, place, entry.outcome)
}

/// Puts the twelve octets of a code as pairs of small hexadecimal digits.
pub(crate) fn put_code(buffer: &mut [u8], place: usize, order: Order, code: &Activation) -> usize
    ensures { Puts (code_text order code.now) place buffer.old result buffer.new }
{
    put_digits(buffer, place, &code.to_bytes(order))
}

/// Puts what became of an activation, and the end of its line.
fn put_outcome(buffer: &mut [u8], place: usize, outcome: Outcome) -> usize
    ensures { Puts (outcome_text outcome ++ codes "\n") place buffer.old result buffer.new }
{
    let place = put_known(buffer, place, outcome);
    put_text(buffer, place, "\n")
}

fn put_known(buffer: &mut [u8], place: usize, outcome: Outcome) -> usize
    ensures { Puts (outcome_text outcome) place buffer.old result buffer.new }
{
    match outcome {
        Outcome::Waiting => put_text(buffer, place, "waiting"),
        Outcome::Accepted => put_text(buffer, place, "accepted"),
        Outcome::Refused(status) => put_signed(buffer, place, "refused ", status),
        Outcome::NoReply => put_text(buffer, place, "noreply"),
        Outcome::Unknown => put_text(buffer, place, "unknown"),
    }
}
