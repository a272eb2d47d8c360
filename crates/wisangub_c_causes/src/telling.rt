//! Why a description, a text and a line of a command are refused: told in numbers, and in words that stand first in a
//! buffer.

ghost use Rattle.std.specs.Prelude.{ℕ, ◌≡◌, ◌⊎◌, ◌<◌, ◌==◌, if◌then◌else◌, true, false, length, Some, None, option_map};
ghost use Rattle.std.specs.Result.{result_err};
ghost use Rattle.std.specs.Str.Lines.{lines};
ghost use Rattle.dms_text.specs.Lines.{kept_lines};
ghost use Rattle.dms_face.specs.Fit.{checked_text};
ghost use Rattle.dms_sign_text_causes.specs.Texts.{cause_text};
ghost use Rattle.dms_sign_text.specs.Causes.{first_cause};
ghost use Rattle.dms_sign_text.specs.Description.{Description, SpellsSign};
ghost use Rattle.dms_sign_text.specs.RefusedLine.{all_numbered, IsRefusedLine};
ghost use Rattle.dms_centre_text.specs.CommandForm.{command_cause, command_cause_text};
ghost use Rattle.wisangub_c_values.specs.Answers.{done, nothing_sent, too_small, no_memory, unless_memory, put_first};
ghost use Rattle.wisangub_c_values.specs.Answers.{size_of, given_answer, given_buffer};
ghost use Rattle.wisangub_c_causes.specs.CommandCauses.{command_cause_numbers};
ghost use Rattle.wisangub_c_causes.specs.LineCauses.{description_cause};
ghost use Rattle.wisangub_c_causes.specs.TextCauses.{text_cause, text_cause_words};
ghost use Rattle.wisangub_c_causes.specs.Telling.{cause_words, command_words, told_answer, told_buffer};
ghost use Rattle.wisangub_c_causes.specs.Telling.{IsWhyNotShown};
ghost use Rattle.wisangub_c_causes.specs.declared.text_causes.TextRefusal.{TextRefusal};

use crate::cause::CauseNumbers;
use crate::command_causes::{command_cause_numbers, command_refusal};
use crate::line_causes::description_cause;
use crate::refusal::{DescriptionRefusal, refusal_of};
use crate::text_causes::{TextCause, TextRefusal, text_cause, text_refusal};
use dms_centre_text::CommandCause;
use dms_face::Face;
use dms_sign_text_causes::LineCause;
use std::alloc::Global;
use wisangub_c_values::{DONE, NO_MEMORY, NOTHING_SENT, give};

/// Gives the words of a cause.
fn give_words(alloc: Global, cause: LineCause, words: &mut [u8], size: &mut usize) -> u32
    ensures answer { result ≡ unless_memory result no_memory (given_answer (cause_text cause) (length words.old)) }
    ensures size { size.new ≡ unless_memory result size.old (length (cause_text cause)) }
    ensures words { words.new ≡ unless_memory result words.old (given_buffer (cause_text cause) words.old) }
{
    match format!(in alloc; "{cause}") {
        Ok(text) => give(text.as_bytes(), words, size),
        Err(_) => NO_MEMORY,
    }
}

/// Tells why a description is refused.
fn tell_refusal(
    alloc: Global,
    why: DescriptionRefusal,
    cause: &mut CauseNumbers,
    words: &mut [u8],
    size: &mut usize,
) -> u32
    ensures answer { result ≡ unless_memory result no_memory
        (given_answer (cause_text why.cause) (length words.old)) }
    ensures size { size.new ≡ unless_memory result size.old (length (cause_text why.cause)) }
    ensures words { words.new ≡ unless_memory result words.old (given_buffer (cause_text why.cause) words.old) }
    ensures cause { cause.new ≡ (if result == done then description_cause why.line why.cause else cause.old) }
{
    let answer = give_words(alloc, why.cause, words, size);
    if answer == DONE {
        *cause = description_cause(why.line, why.cause);
    }
    answer
}

/// Why a description is refused: the line and the first cause in numbers, and the cause in words. Nothing, where it is
/// a sign's.
pub fn tell_description(
    alloc: Global,
    text: &[u8],
    cause: &mut CauseNumbers,
    words: &mut [u8],
    size: &mut usize,
) -> u32
    ensures answer { (result ≡ done) ⊎ ((result ≡ nothing_sent) ⊎ ((result ≡ too_small) ⊎ (result ≡ no_memory))) }
    ensures sign { result ≡ nothing_sent → (it : Description) × SpellsSign (kept_lines text.now) it }
    ensures cause { result ≡ done → (line : ℕ) × IsRefusedLine (all_numbered (lines text.now)) line
        × (Some cause.new ≡ option_map (description_cause line) (first_cause (kept_lines text.now))) }
    ensures words { result ≡ done
        → Some words.new ≡ option_map (λ told. put_first told words.old) (cause_words text.now) }
    ensures size { result ≡ done → Some size.new ≡ option_map length (cause_words text.now) }
    ensures needed { result ≡ too_small
        → (Some size.new ≡ option_map length (cause_words text.now)) × (length words.old < size.new) }
    ensures nothing { result ≡ nothing_sent → size.new ≡ 0 }
    ensures unchanged { (result == done) ≡ false → (cause.new ≡ cause.old) × (words.new ≡ words.old) }
    ensures memory { result ≡ no_memory → size.new ≡ size.old }
{
    match refusal_of(alloc, text) {
        Ok(Some(why)) => tell_refusal(alloc, why, cause, words, size),
        Ok(None) => {
            *size = 0;
            NOTHING_SENT
        }
        Err(_) => NO_MEMORY,
    }
}

/// Gives the words of why a text can not be shown.
fn give_text_words(alloc: Global, why: TextRefusal, words: &mut [u8], size: &mut usize) -> u32
    ensures answer { result ≡ unless_memory result no_memory
        (given_answer (text_cause_words why) (length words.old)) }
    ensures size { size.new ≡ unless_memory result size.old (length (text_cause_words why)) }
    ensures words { words.new ≡ unless_memory result words.old (given_buffer (text_cause_words why) words.old) }
{
    let fault = why.fault;
    let told = match why.lack {
        Some(lack) => format!(in alloc; "{fault}: {lack}"),
        None => format!(in alloc; "{fault}"),
    };
    match told {
        Ok(text) => give(text.as_bytes(), words, size),
        Err(_) => NO_MEMORY,
    }
}

/// Tells why a text can not be shown on a face: nothing, where it can be shown.
pub fn tell_text(
    alloc: Global,
    face: &Face,
    text: &[u8],
    cause: &mut TextCause,
    words: &mut [u8],
    size: &mut usize,
) -> u32
    ensures answer { (result ≡ done) ⊎ ((result ≡ nothing_sent) ⊎ ((result ≡ too_small) ⊎ (result ≡ no_memory))) }
    ensures shown { result ≡ nothing_sent → result_err (checked_text face.now text.now) ≡ None }
    ensures told { result ≡ done → (why : TextRefusal) × IsWhyNotShown face.now text.now why
        × (cause.new ≡ text_cause why) × (words.new ≡ put_first (text_cause_words why) words.old)
        × (size.new ≡ length (text_cause_words why)) }
    ensures needed { result ≡ too_small → (why : TextRefusal) × IsWhyNotShown face.now text.now why
        × (size.new ≡ length (text_cause_words why)) × (length words.old < size.new) }
    ensures nothing { result ≡ nothing_sent → size.new ≡ 0 }
    ensures unchanged { (result == done) ≡ false → (cause.new ≡ cause.old) × (words.new ≡ words.old) }
    ensures memory { result ≡ no_memory → size.new ≡ size.old }
{
    let Some(why) = text_refusal(alloc, face, text) else {
        *size = 0;
        return NOTHING_SENT;
    };
    let answer = give_text_words(alloc, why, words, size);
    if answer == DONE {
        *cause = text_cause(why);
    }
    answer
}

/// Gives the words of why a line spells no command.
fn give_command_words(alloc: Global, cause: CommandCause, words: &mut [u8], size: &mut usize) -> u32
    ensures answer { result ≡ unless_memory result no_memory
        (given_answer (command_cause_text cause) (length words.old)) }
    ensures size { size.new ≡ unless_memory result size.old (length (command_cause_text cause)) }
    ensures words { words.new ≡ unless_memory result words.old (given_buffer (command_cause_text cause) words.old) }
{
    match format!(in alloc; "{cause}") {
        Ok(text) => give(text.as_bytes(), words, size),
        Err(_) => NO_MEMORY,
    }
}

/// Why a line spells no command of a central system, in numbers and in words. Nothing, where it spells one.
pub fn tell_command(
    alloc: Global,
    line: &[u8],
    cause: &mut CauseNumbers,
    words: &mut [u8],
    size: &mut usize,
) -> u32
    ensures answer { result ≡ unless_memory result no_memory
        (told_answer (command_words line.now) (length words.old)) }
    ensures size { size.new ≡ unless_memory result size.old (size_of (command_words line.now)) }
    ensures words { words.new ≡ unless_memory result words.old (told_buffer (command_words line.now) words.old) }
    ensures cause { result ≡ done → Some cause.new ≡ option_map command_cause_numbers (command_cause line.now) }
    ensures unchanged { (result == done) ≡ false → cause.new ≡ cause.old }
{
    let Some(why) = command_refusal(line) else {
        *size = 0;
        return NOTHING_SENT;
    };
    let answer = give_command_words(alloc, why, words, size);
    if answer == DONE {
        *cause = command_cause_numbers(why);
    }
    answer
}
