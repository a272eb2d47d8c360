//! The activations of a central system's ledger, as lines of text.

ghost use Rattle.std.specs.Prelude.{◌≡◌, ◌<◌, ◌+◌, ◌++◌, ℕ, codes, length, OnOk, OnErr, flat_map};
ghost use Rattle.std.specs.Prelude.{vec_len, vec_capacity};
ghost use Rattle.std.specs.Fmt.{signed_decimal};
ghost use Rattle.dms_centre.specs.Texts.{outcome_text};
ghost use Rattle.dms_centre.specs.CodeView.{entry_model};
ghost use Rattle.dms_centre.specs.declared.ledger.Entry.{Entry};
ghost use Rattle.dms_centre_text.specs.LedgerLine.{ledger_line};
ghost use Rattle.dms_text_forms.specs.LineText.{code_text};

use dms_centre::{Centre, Entry, Outcome};
use dms_codes::{Activation, Order};
use dms_text_filling::two_digits;
use indexmap::IndexMap;
use itoa::Buffer;
use std::alloc::AllocError;

/// Appends a line for each activation of the ledger, in the order of their requests. Where there is none no memory is
/// asked for.
pub fn put_ledger(report: &mut Vec<u8>, centre: &Centre) -> Result<(), AllocError>
    ensures text { OnOk result (report.new.items
        ≡ report.old.items ++ flat_map (ledger_line centre.now.state.settings.order) centre.now.state.ledger) }
    ensures memory { OnErr result (0 < length centre.now.state.ledger) }
{
    put_entries(report, centre.order(), centre.ledger())
}

/// Appends the octets of a code, numbers high octet first and its checksum in this order, as pairs of lower case
/// hexadecimal digits. It takes no memory where the text has room for them.
pub fn put_code(text: &mut Vec<u8>, order: Order, code: &Activation) -> Result<(), AllocError>
    ensures text { OnOk result (text.new.items ≡ text.old.items ++ code_text order code.now) }
    ensures memory { OnErr result (vec_capacity text.old < vec_len text.old + 24) }
{
    text.extend_from_slice(&code_digits(order, code))
}

/// These digits.
#[inline]
fn code_digits(order: Order, code: &Activation) -> [u8; 24]
    ensures { result ≡ code_text order code.now }
{
    let [a, b, c, d, e, f, g, h, i, j, k, l] = code.to_bytes(order);
    let (a1, a2) = two_digits(a);
    let (b1, b2) = two_digits(b);
    let (c1, c2) = two_digits(c);
    let (d1, d2) = two_digits(d);
    let (e1, e2) = two_digits(e);
    let (f1, f2) = two_digits(f);
    let (g1, g2) = two_digits(g);
    let (h1, h2) = two_digits(h);
    let (i1, i2) = two_digits(i);
    let (j1, j2) = two_digits(j);
    let (k1, k2) = two_digits(k);
    let (l1, l2) = two_digits(l);
    [
        a1, a2, b1, b2, c1, c2, d1, d2, e1, e2, f1, f2, g1, g2, h1, h2, i1, i2, j1, j2, k1, k2, l1,
        l2,
    ]
}

fn put_entry(
    report: &mut Vec<u8>,
    order: Order,
    number: u32,
    entry: &Entry,
) -> Result<(), AllocError>
    ensures { OnOk result (report.new.items ≡ report.old.items ++ ledger_line order (entry_model (number, entry.now))) }
{
    report.extend_from_slice(b"ledger ")?;
    report.extend_from_slice(Buffer::new().format(number).as_bytes())?;
    put_judged(report, order, entry)
}

/// The code of an entry and what became of it, each after a space, and the line's end. Most were accepted: then all is
/// put at once.
#[inline(always)]
fn put_judged(report: &mut Vec<u8>, order: Order, entry: &Entry) -> Result<(), AllocError>
    ensures { OnOk result (report.new.items ≡ report.old.items ++ codes " " ++ code_text order entry.now.code
        ++ codes " " ++ outcome_text entry.now.outcome ++ codes "\n") }
{
    match entry.outcome {
        Outcome::Accepted => report.extend_from_slice(&accepted(code_digits(order, &entry.code))),
        _ => {
            report.push(b' ')?;
            put_code(report, order, &entry.code)?;
            put_outcome(report, entry.outcome)
        }
    }
}

/// The end of a line with the digits of a code that was accepted.
#[inline(always)]
fn accepted(digits: [u8; 24]) -> [u8; 35]
    ensures { result ≡ codes " " ++ digits ++ codes " accepted\n" }
{
    let [
        a1,
        a2,
        b1,
        b2,
        c1,
        c2,
        d1,
        d2,
        e1,
        e2,
        f1,
        f2,
        g1,
        g2,
        h1,
        h2,
        i1,
        i2,
        j1,
        j2,
        k1,
        k2,
        l1,
        l2,
    ] = digits;
    [
        b' ', a1, a2, b1, b2, c1, c2, d1, d2, e1, e2, f1, f2, g1, g2, h1, h2, i1, i2, j1, j2, k1,
        k2, l1, l2, b' ', b'a', b'c', b'c', b'e', b'p', b't', b'e', b'd', b'\n',
    ]
}

/// What became of an activation, after a space, and the line's end.
fn put_outcome(report: &mut Vec<u8>, outcome: Outcome) -> Result<(), AllocError>
    ensures { OnOk result (report.new.items ≡ report.old.items ++ codes " " ++ outcome_text outcome ++ codes "\n") }
{
    match outcome {
        Outcome::Waiting => report.extend_from_slice(b" waiting\n"),
        Outcome::Accepted => report.extend_from_slice(b" accepted\n"),
        Outcome::Refused(status) => put_refused(report, status),
        Outcome::NoReply => report.extend_from_slice(b" noreply\n"),
        Outcome::Unknown => report.extend_from_slice(b" unknown\n"),
    }
}

fn put_refused(report: &mut Vec<u8>, status: i64) -> Result<(), AllocError>
    ensures { OnOk result (report.new.items
        ≡ report.old.items ++ codes " refused " ++ signed_decimal status ++ codes "\n") }
{
    report.extend_from_slice(b" refused ")?;
    report.extend_from_slice(Buffer::new().format(status).as_bytes())?;
    report.push(b'\n')?;
    Ok(())
}

fn put_entries(
    report: &mut Vec<u8>,
    order: Order,
    ledger: &IndexMap<u32, Entry>,
) -> Result<(), AllocError>
    ensures text { OnOk result (report.new.items ≡ report.old.items
        ++ flat_map (λ (entry : ℕ × Entry). ledger_line order (entry_model entry)) ledger.now.entries) }
    ensures memory { OnErr result (0 < length ledger.now.entries) }
{
    for (number, entry) in ledger.iter() {
        put_entry(report, order, *number, entry)?;
    }
    Ok(())
}
