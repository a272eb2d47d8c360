//! The items of a text, printed.

ghost use Rattle.std.specs.Prelude.{◌≡◌, ◌++◌, ℕ, Option, codes, decimal, IfOk, OnOk};
ghost use Rattle.dms_multi.specs.Fault.{code_number};
ghost use Rattle.dms_multi.specs.Outcomes.{outcomes_of, fault_in};
ghost use Rattle.signtool_print.specs.TextAnswers.{fault_line};
ghost use Rattle.signtool_print.specs.ItemLines.{item_line, item_lines, item_name, item_version, value_text};
ghost use Rattle.signtool_print.specs.ItemLines.{values_text, version_text};
ghost use Rattle.signtool_print.specs.ItemWords.{text_of_values};

use crate::item_words::{ItemWords, Values};
use dms_multi::{Spot, SyntaxFault, items};
use std::io;
use std::io::Write;

/// Writes each item of a text before its fault, a line each: the offset in octets, what it is, and its values, of which
/// `default` is the sign's; and then its fault, if it has one. Gives the fault.
#[tactic(auto, using(crate::proofs::Appended::listing))]
pub(crate) fn write_items(text: &[u8], lines: &mut Vec<u8>) -> io::Result<Option<SyntaxFault>>
    ensures lines { OnOk result (lines.new.items ≡ lines.old.items ++ item_lines (outcomes_of text.now)) }
    ensures fault { IfOk result (λ fault. fault ≡ fault_in (outcomes_of text.now)) }
{
    for outcome in items(text) {
        match outcome {
            Ok(spot) => write_spot(&spot, lines)?,
            Err(fault) => {
                write_fault(fault, lines)?;
                return Ok(Some(fault));
            }
        }
    }
    Ok(None)
}

fn write_fault(fault: SyntaxFault, lines: &mut Vec<u8>) -> io::Result<()>
    ensures { OnOk result (lines.new.items ≡ lines.old.items ++ fault_line (code_number fault.code) fault.place) }
{
    let (number, place) = (fault.code.number(), fault.place);
    writeln!(lines, "fault {number} at {place}")
}

#[tactic(auto, using(crate::proofs::Appended::three_parts))]
fn write_spot(spot: &Spot, lines: &mut Vec<u8>) -> io::Result<()>
    ensures { OnOk result (lines.new.items ≡ lines.old.items ++ item_line spot.now) }
{
    let words = ItemWords::of(spot.item);
    write!(lines, "{} {}", spot.first, words.name)?;
    write_values(words.values, lines)?;
    write_version(words.version, lines)
}

#[tactic(auto, using(crate::proofs::Appended::two_parts))]
fn write_values(values: Values, lines: &mut Vec<u8>) -> io::Result<()>
    ensures { OnOk result (lines.new.items ≡ lines.old.items ++ text_of_values values) }
{
    match values {
        Values::Nothing => Ok(()),
        Values::One(value) => write_number(value, lines),
        Values::Two(first, second) => {
            write_number(first, lines)?;
            write_number(second, lines)
        }
    }
}

/// Writes a space and a value, or `default`.
fn write_number(value: Option<u16>, lines: &mut Vec<u8>) -> io::Result<()>
    ensures { OnOk result (lines.new.items ≡ lines.old.items ++ value_text value) }
{
    match value {
        Some(number) => write!(lines, " {number}"),
        None => write!(lines, " default"),
    }
}

/// Writes the version of a font, if it has one, and the end of the line.
fn write_version(version: Option<u16>, lines: &mut Vec<u8>) -> io::Result<()>
    ensures { OnOk result (lines.new.items ≡ lines.old.items ++ (version_text version ++ codes "\n")) }
{
    match version {
        Some(version) => writeln!(lines, " version {version}"),
        None => writeln!(lines),
    }
}
