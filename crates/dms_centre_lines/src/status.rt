//! How a central system stands.

ghost use Rattle.std.specs.Prelude.{◌≡◌, ◌++◌, IfOk, OnOk};
ghost use Rattle.dms_centre_lines.specs.Answers.{job_line, last_line, status_lines, last_lines};

use dms_centre::{Centre, Ended};
use dms_centre_text::put_ledger;
use std::alloc::{AllocError, Global};
use std::io;
use std::io::Write;

/// The lines that say how a central system stands.
pub(crate) fn status(alloc: Global, centre: &Centre) -> Result<Vec<u8>, AllocError>
    ensures { IfOk result (λ text. text.items ≡ status_lines centre.now.state) }
{
    let mut text = Vec::new(alloc);
    match put_status(&mut text, centre) {
        Ok(()) => Ok(text),
        Err(_) => Err(AllocError),
    }
}

/// The same without its ledger.
pub(crate) fn status_last(alloc: Global, centre: &Centre) -> Result<Vec<u8>, AllocError>
    ensures { IfOk result (λ text. text.items ≡ last_lines centre.now.state) }
{
    let mut text = Vec::new(alloc);
    match put_status_last(&mut text, centre) {
        Ok(()) => Ok(text),
        Err(_) => Err(AllocError),
    }
}

fn put_status_last(text: &mut Vec<u8>, centre: &Centre) -> io::Result<()>
    ensures { OnOk result (text.new.items ≡ text.old.items ++ last_lines centre.now.state) }
{
    put_job(text, centre.busy())?;
    put_last(text, centre.last())?;
    text.write_all(b"ok\n")
}

fn put_status(text: &mut Vec<u8>, centre: &Centre) -> io::Result<()>
    ensures { OnOk result (text.new.items ≡ text.old.items ++ status_lines centre.now.state) }
{
    put_job(text, centre.busy())?;
    put_last(text, centre.last())?;
    put_ledger(text, centre)?;
    text.write_all(b"ok\n")
}

/// Appends whether a job is on.
fn put_job(text: &mut Vec<u8>, busy: bool) -> io::Result<()>
    ensures { OnOk result (text.new.items ≡ text.old.items ++ job_line busy) }
{
    if busy {
        text.write_all(b"busy\n")
    } else {
        text.write_all(b"idle\n")
    }
}

/// Appends how the last job ended.
fn put_last(text: &mut Vec<u8>, last: Ended) -> io::Result<()>
    ensures { OnOk result (text.new.items ≡ text.old.items ++ last_line last) }
{
    match last {
        Ended::Never => text.write_all(b"last none\n"),
        _ => writeln!(text, "last {last}"),
    }
}
