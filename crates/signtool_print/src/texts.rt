//! Texts on a face: the number of their pages, their pages, and their faults.

ghost use Rattle.std.specs.Prelude.{◌≡◌, ◌-◌, IfOk, slice_get, take};
ghost use Rattle.signtool_calls.specs.declared.call.Form.TheVariants.{Lines};
ghost use Rattle.dms_face.specs.Fit.{most_pages};
ghost use Rattle.dms_face_picture.specs.Picture.{picture_of};
ghost use Rattle.signtool_print.specs.Printed.{PrintsOrMemory};
ghost use Rattle.signtool_print.specs.TextAnswers.{fault_line, count_line, fault_answer, count_answer, check_answer};
ghost use Rattle.signtool_print.specs.TextAnswers.{all_answer, page_answer, one_answer, wanted_answer, pages_answer};

use crate::reading::print_no_memory;
use crate::statuses::{ExitStatus, print_made, print_memory, print_text};
use dms_face::{Face, MultiFault, check};
use dms_face_pages::{Page, PagesFault, numbered_page, pages, pages_text};
use dms_face_picture::{picture, still};
use dms_text_streams::{Failed, Sink};
use signtool_calls::{Drawing, Form};
use signtool_lacks::what_lacks;
use std::alloc::{AllocError, Global};
use std::io::Write;

/// Prints the number of a text's pages on a face, or its fault, which is said in words too.
pub fn print_count<W: Sink, E: Write>(
    alloc: Global,
    text: &str,
    face: &Face,
    form: Form,
    writer: &mut W,
    errors: &mut E,
) -> Result<ExitStatus, Failed>
    ensures { form ≡ Lines → PrintsOrMemory (W.contents writer.old) (W.contents writer.new) (W.failed writer.old)
        (W.failed writer.new) result (check_answer face.now text.now) }
{
    let checked = check(face, text.as_bytes());
    if let Err(fault) = checked {
        say_fault(alloc, text, face, fault, errors);
    }
    match form {
        Form::Lines => print_checked(alloc, checked, writer, errors),
        Form::Json => print_checked_json(alloc, checked, writer, errors),
    }
}

/// Prints the number of pages, or the fault, as a line.
fn print_checked<W: Sink, E: Write>(
    alloc: Global,
    checked: Result<usize, MultiFault>,
    writer: &mut W,
    errors: &mut E,
) -> Result<ExitStatus, Failed>
    ensures { PrintsOrMemory (W.contents writer.old) (W.contents writer.new) (W.failed writer.old)
        (W.failed writer.new) result (count_answer checked) }
{
    match checked {
        Ok(pages) => match count_line(alloc, pages) {
            Ok(line) => print_made(writer, line, ExitStatus::Done),
            Err(_) => print_memory(writer, errors),
        },
        Err(fault) => print_fault(alloc, fault, writer, errors),
    }
}

/// Prints the fault of a text, as a line.
fn print_fault<W: Sink, E: Write>(
    alloc: Global,
    fault: MultiFault,
    writer: &mut W,
    errors: &mut E,
) -> Result<ExitStatus, Failed>
    ensures { PrintsOrMemory (W.contents writer.old) (W.contents writer.new) (W.failed writer.old)
        (W.failed writer.new) result (fault_answer fault) }
{
    match fault_line(alloc, fault.code.number(), fault.place) {
        Ok(line) => print_made(writer, line, ExitStatus::Refused),
        Err(_) => print_memory(writer, errors),
    }
}

fn count_line(alloc: Global, pages: usize) -> Result<Vec<u8>, AllocError>
    ensures { IfOk result (λ line. line.items ≡ count_line pages) }
{
    let mut line = Vec::new(alloc);
    writeln!(line, "ok pages {pages}").or(Err(AllocError))?;
    Ok(line)
}

/// The line that says a fault by its number and its offset.
pub(crate) fn fault_line(alloc: Global, number: u8, place: usize) -> Result<Vec<u8>, AllocError>
    ensures { IfOk result (λ line. line.items ≡ fault_line number place) }
{
    let mut line = Vec::new(alloc);
    writeln!(line, "fault {number} at {place}").or(Err(AllocError))?;
    Ok(line)
}

/// Prints the number of pages, or the fault, as an object of JSON.
fn print_checked_json<W: Sink, E: Write>(
    alloc: Global,
    checked: Result<usize, MultiFault>,
    writer: &mut W,
    errors: &mut E,
) -> Result<ExitStatus, Failed> {
    let mut object = Vec::new(alloc);
    let (made, status) = match checked {
        Ok(pages) => (writeln!(object, "{{\"pages\":{pages}}}"), ExitStatus::Done),
        Err(fault) => {
            let (number, place) = (fault.code.number(), fault.place);
            (
                writeln!(object, "{{\"fault\":{number},\"at\":{place}}}"),
                ExitStatus::Refused,
            )
        }
    };
    match made {
        Ok(()) => print_made(writer, object, status),
        Err(_) => print_no_memory(Form::Json, writer, errors),
    }
}

/// Prints the pages of a text on a face, or its fault, which is said in words too.
pub fn print_pages<W: Sink, E: Write>(
    alloc: Global,
    text: &str,
    face: &Face,
    drawing: Drawing,
    writer: &mut W,
    errors: &mut E,
) -> Result<ExitStatus, Failed>
    ensures { PrintsOrMemory (W.contents writer.old) (W.contents writer.new) (W.failed writer.old)
        (W.failed writer.new) result (pages_answer face.now text.now drawing) }
{
    match pages(alloc, face, text.as_bytes()) {
        Ok(pages) => {
            let text = text.as_bytes();
            print_drawn(alloc, face, text, pages.as_slice(), drawing, writer, errors)
        }
        Err(PagesFault::Multi(fault)) => {
            say_fault(alloc, text, face, fault, errors);
            print_fault(alloc, fault, writer, errors)
        }
        Err(PagesFault::Memory) => print_memory(writer, errors),
    }
}

/// Prints pages of a text on a face as they are to be drawn, or the one that is wanted, where it is one of them.
fn print_drawn<W: Sink, E: Write>(
    alloc: Global,
    face: &Face,
    text: &[u8],
    pages: &[Page],
    drawing: Drawing,
    writer: &mut W,
    errors: &mut E,
) -> Result<ExitStatus, Failed>
    ensures { PrintsOrMemory (W.contents writer.old) (W.contents writer.new) (W.failed writer.old)
        (W.failed writer.new) result (wanted_answer drawing.svg face.now text.now pages.now drawing.page) }
{
    match drawing.page {
        None => print_all(alloc, face, text, pages, drawing.svg, writer, errors),
        Some(number) => print_one(alloc, text, pages, (number, drawing.svg), writer, errors),
    }
}

fn print_all<W: Sink, E: Write>(
    alloc: Global,
    face: &Face,
    text: &[u8],
    pages: &[Page],
    svg: bool,
    writer: &mut W,
    errors: &mut E,
) -> Result<ExitStatus, Failed>
    ensures { PrintsOrMemory (W.contents writer.old) (W.contents writer.new) (W.failed writer.old)
        (W.failed writer.new) result (all_answer svg face.now text.now pages.now) }
{
    if svg {
        match picture_on(alloc, face, text, pages) {
            Ok(document) => print_made(writer, document, ExitStatus::Done),
            Err(_) => print_memory(writer, errors),
        }
    } else {
        match pages_text(alloc, pages) {
            Ok(document) => print_made(writer, document, ExitStatus::Done),
            Err(_) => print_memory(writer, errors),
        }
    }
}

fn picture_on(
    alloc: Global,
    face: &Face,
    text: &[u8],
    pages: &[Page],
) -> Result<Vec<u8>, AllocError>
    ensures { IfOk result (λ document. document.items
        ≡ picture_of face.now.width face.now.height text.now (take most_pages pages.now)) }
{
    match picture(alloc, face.width(), face.height(), text, pages) {
        Ok(document) => Ok(document),
        Err(error) => Err(error),
    }
}

/// Prints the page of this number, where there is one, as a picture or cell by cell.
fn print_one<W: Sink, E: Write>(
    alloc: Global,
    text: &[u8],
    pages: &[Page],
    wanted: (u8, bool),
    writer: &mut W,
    errors: &mut E,
) -> Result<ExitStatus, Failed>
    ensures { PrintsOrMemory (W.contents writer.old) (W.contents writer.new) (W.failed writer.old)
        (W.failed writer.new) result (one_answer wanted.1 text.now wanted.0 (slice_get pages.now (wanted.0 - 1))) }
{
    let (number, svg) = wanted;
    let number = usize::from(number);
    match pages.get(number.saturating_sub(1)) {
        Some(page) => print_page(alloc, text, page, number, svg, writer, errors),
        None => {
            let count = pages.len();
            let _ = writeln!(
                errors,
                "the text has no page {number}: pages are counted from 1 to {count}"
            );
            print_text(writer, b"no such page\n", ExitStatus::Refused)
        }
    }
}

fn print_page<W: Sink, E: Write>(
    alloc: Global,
    text: &[u8],
    page: &Page,
    number: usize,
    svg: bool,
    writer: &mut W,
    errors: &mut E,
) -> Result<ExitStatus, Failed>
    ensures { PrintsOrMemory (W.contents writer.old) (W.contents writer.new) (W.failed writer.old)
        (W.failed writer.new) result (page_answer svg text.now number page.now) }
{
    if svg {
        match still(alloc, text, page) {
            Ok(document) => print_made(writer, document, ExitStatus::Done),
            Err(_) => print_memory(writer, errors),
        }
    } else {
        match numbered_page(alloc, number, page) {
            Ok(document) => print_made(writer, document, ExitStatus::Done),
            Err(_) => print_memory(writer, errors),
        }
    }
}

/// Says the fault of a text on a face, and what the face lacks for it.
fn say_fault<E: Write>(alloc: Global, text: &str, face: &Face, fault: MultiFault, errors: &mut E) {
    let _ = match what_lacks(alloc, face, text.as_bytes(), fault) {
        Some(lack) => writeln!(errors, "{fault}: {lack}"),
        None => writeln!(errors, "{fault}"),
    };
    if text.as_bytes().iter().any(|octet| *octet > 127)
        && let Ok(digits) = hex::encode(alloc, text.as_bytes())
    {
        let _ = writeln!(errors, "the word was read as the octets {digits}");
    }
}
