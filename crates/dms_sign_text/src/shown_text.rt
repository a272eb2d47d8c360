//! What a sign shows, as a line of text.

ghost use Rattle.std.specs.Prelude.{◌≡◌, ◌++◌, IfOk, OnOk, codes, decimal, string_bytes};
ghost use Rattle.hex.specs.Hex.{encode_lower};
ghost use Rattle.dms_codes.specs.Codes.{two_octets};
ghost use Rattle.dms_table.specs.Activation.{minutes_left};
ghost use Rattle.dms_sign_text.specs.ShownLine.{octets_text, shown_line};

use dms_table::Shown;
use std::alloc::{AllocError, Global};
use std::io::Write;

/// Appends the line of what is shown: its row with the checksum as a number, how it was activated, its priority, the
/// minutes that are left, its text.
pub fn put_shown(alloc: Global, report: &mut Vec<u8>, shown: &Shown) -> Result<(), AllocError>
    ensures { OnOk result (report.new.items ≡ report.old.items ++ shown_line shown.now) }
{
    put_source(alloc, report, shown)?;
    put_manner(report, shown)?;
    put_remaining(report, shown)?;
    put_text(alloc, report, shown)
}

fn put_source(alloc: Global, report: &mut Vec<u8>, shown: &Shown) -> Result<(), AllocError>
    ensures { OnOk result
        (report.new.items ≡ report.old.items ++ (codes "shown " ++ decimal shown.now.source.memory ++ codes " "
        ++ decimal shown.now.source.number ++ codes " " ++ encode_lower (two_octets shown.now.source.crc))) }
{
    let source = shown.source;
    let crc = checksum_text(alloc, source.crc)?;
    write!(report, "shown {} {} {crc}", source.memory, source.number).or(Err(AllocError))
}

fn put_manner(report: &mut Vec<u8>, shown: &Shown) -> Result<(), AllocError>
    ensures { OnOk result (report.new.items ≡ report.old.items
        ++ (codes " mode " ++ decimal shown.now.mode ++ codes " priority " ++ decimal shown.now.priority)) }
{
    write!(report, " mode {} priority {}", shown.mode, shown.priority).or(Err(AllocError))
}

fn put_remaining(report: &mut Vec<u8>, shown: &Shown) -> Result<(), AllocError>
    ensures { OnOk result
        (report.new.items ≡ report.old.items ++ (codes " remaining " ++ decimal (minutes_left shown.now.remaining))) }
{
    let minutes = shown.minutes_left();
    write!(report, " remaining {minutes}").or(Err(AllocError))
}

fn put_text(alloc: Global, report: &mut Vec<u8>, shown: &Shown) -> Result<(), AllocError>
    ensures { OnOk result
        (report.new.items ≡ report.old.items ++ (codes " text " ++ octets_text shown.now.text ++ codes "\n")) }
{
    let text = octets_text(alloc, shown.text.as_slice())?;
    writeln!(report, " text {text}").or(Err(AllocError))
}

fn checksum_text(alloc: Global, crc: u16) -> Result<String, AllocError>
    ensures { IfOk result (λ text. string_bytes text ≡ encode_lower (two_octets crc)) }
{
    hex::encode(alloc, crc.to_be_bytes().as_slice())
}

/// Octets as pairs of hexadecimal digits, or `-` for none.
fn octets_text(alloc: Global, octets: &[u8]) -> Result<String, AllocError>
    ensures { IfOk result (λ text. string_bytes text ≡ octets_text octets.now) }
{
    if octets.is_empty() {
        String::from_str(alloc, "-")
    } else {
        hex::encode(alloc, octets)
    }
}
