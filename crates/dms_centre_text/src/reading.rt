//! The lines of commands.

ghost use Rattle.std.specs.Prelude.{◌≡◌, ◌<◌, true, IfOk, IsSome, OnErr, option_map};
ghost use Rattle.std.specs.Result.{result_ok, result_err};
ghost use Rattle.dms_text.specs.Reading.{octets_of};
ghost use Rattle.dms_text_forms.specs.Form.{fault_from};
ghost use Rattle.dms_centre_text.specs.CommandForm.{form_after, command_cause};
ghost use Rattle.dms_centre_text.specs.CommandReading.{publish_at, blank_at, command_after, command_of};
ghost use Rattle.dms_centre_text.specs.CommandReading.{carries_octets, has_octets, last_code_at, IsOfOctets};
ghost use Rattle.dms_centre_text.specs.CommandView.{owned_command_model, publication_in};
ghost use Rattle.dms_centre_text.specs.declared.command_word.CommandWord.TheVariants as keys;

use crate::cause::CommandCause;
use crate::command_word::CommandWord;
use crate::fields::{attributes, last_code, last_terms, row};
use crate::owned_command::OwnedCommand;
use dms_centre::{Attributes, Terms};
use dms_codes::{Order, RowId};
use dms_text::{Words, octets};
use dms_text_forms::{LineWords, WordFault, WordName};
use std::alloc::{AllocError, Global};

/// The words of a publication, its octets as they are spelled.
#[derive(Drop)]
struct PublicationWords<'a> {
    row: RowId,
    text: &'a [u8],
    owner: &'a [u8],
    attributes: Attributes,
    terms: Terms,
}

/// The command that a line spells, or why it spells none. A code is in this order. Only a line that spells a
/// publication wants memory.
#[tactic(auto, unfolding(crate::specs::CommandReading::command_of, crate::specs::CommandReading::keyword_of))]
pub fn read_command(
    alloc: Global,
    order: Order,
    line: &[u8],
) -> Result<Result<OwnedCommand, CommandCause>, AllocError>
    ensures command { IfOk result (λ read. option_map owned_command_model (result_ok read)
        ≡ command_of order line.now) }
    ensures cause { IfOk result (λ read. result_err read ≡ command_cause line.now) }
    ensures memory { OnErr result (IsOfOctets line.now) }
    ensures spelled { OnErr result (has_octets (command_of order line.now) ≡ true) }
{
    let Some((word, words)) = Words::of(line).next_word() else {
        return Ok(Err(CommandCause::Keyword));
    };
    let Some(keyword) = CommandWord::of(word) else {
        return Ok(Err(CommandCause::Keyword));
    };
    match command_after(alloc, order, keyword, LineWords { place: 2, words })? {
        Ok(command) => Ok(Ok(command)),
        Err(fault) => Ok(Err(CommandCause::Word(fault))),
    }
}

/// The command that begins with this word and goes on with these, or the first of these that is not what is wanted.
/// Only a publication wants memory.
pub fn command_after(
    alloc: Global,
    order: Order,
    keyword: CommandWord,
    words: LineWords<'_>,
) -> Result<Result<OwnedCommand, WordFault>, AllocError>
    requires { words.place < 8 }
    ensures command { IfOk result (λ read. option_map owned_command_model (result_ok read)
        ≡ command_after order keyword words.entry.words) }
    ensures fault { IfOk result (λ read. result_err read
        ≡ fault_from words.entry.place (form_after keyword) words.entry.words) }
    ensures memory { OnErr result (carries_octets keyword ≡ true) }
    ensures spelled { OnErr result (has_octets (command_after order keyword words.entry.words) ≡ true) }
{
    match keyword {
        CommandWord::Publish => publish(alloc, words),
        CommandWord::Blank => Ok(blank(words)),
        CommandWord::Activate => Ok(activate(order, words)),
    }
}

/// All words of a publication are looked at before memory is asked for.
fn publish(
    alloc: Global,
    words: LineWords<'_>,
) -> Result<Result<OwnedCommand, WordFault>, AllocError>
    requires { words.place < 8 }
    ensures command { IfOk result (λ read. option_map owned_command_model (result_ok read)
        ≡ publish_at words.entry.words) }
    ensures fault { IfOk result (λ read. result_err read
        ≡ fault_from words.entry.place (form_after keys.Publish) words.entry.words) }
    ensures spelled { OnErr result (has_octets (publish_at words.entry.words) ≡ true) }
{
    let publication = match publication_words(words) {
        Ok(publication) => publication,
        Err(fault) => return Ok(Err(fault)),
    };
    let text = octets(alloc, publication.text)?.unwrap();
    let owner = octets(alloc, publication.owner)?.unwrap();
    Ok(Ok(OwnedCommand::Publish {
        row: publication.row,
        text,
        owner,
        attributes: publication.attributes,
        terms: publication.terms,
    }))
}

#[tactic(auto, unfolding(crate::specs::CommandReading::publish_at), using(dms_text_forms::proofs::LineLaws::words))]
fn publication_words(words: LineWords<'_>) -> Result<PublicationWords<'_>, WordFault>
    requires { words.place < 8 }
    ensures publication { option_map publication_in (result_ok result) ≡ publish_at words.entry.words }
    ensures fault { result_err result ≡ fault_from words.entry.place (form_after keys.Publish) words.entry.words }
    ensures text { IfOk result (λ publication. IsSome (octets_of publication.text.now)) }
    ensures owner { IfOk result (λ publication. IsSome (octets_of publication.owner.now)) }
{
    let (row, words) = row(words)?;
    let (text, words) = words.octets(WordName::Text)?;
    let (owner, words) = words.octets(WordName::Owner)?;
    let (attributes, words) = attributes(words)?;
    let terms = last_terms(words)?;
    Ok(PublicationWords {
        row,
        text,
        owner,
        attributes,
        terms,
    })
}

#[tactic(auto, unfolding(crate::specs::CommandReading::blank_at), using(dms_text_forms::proofs::LineLaws::words))]
fn blank(words: LineWords<'_>) -> Result<OwnedCommand, WordFault>
    requires { words.place < 8 }
    ensures command { option_map owned_command_model (result_ok result) ≡ blank_at words.entry.words }
    ensures fault { result_err result ≡ fault_from words.entry.place (form_after keys.Blank) words.entry.words }
{
    let (number, words) = words.number(0, 65535)?;
    let terms = last_terms(words)?;
    Ok(OwnedCommand::Blank { number, terms })
}

fn activate(order: Order, words: LineWords<'_>) -> Result<OwnedCommand, WordFault>
    requires { words.place < 8 }
    ensures command { option_map owned_command_model (result_ok result)
        ≡ command_after order keys.Activate words.entry.words }
    ensures fault { result_err result ≡ fault_from words.entry.place (form_after keys.Activate) words.entry.words }
{
    let code = last_code(order, words)?;
    Ok(OwnedCommand::Activate(code))
}
