//! Why a description, a text and a line of a command are refused, from C.

ghost use Rattle.std.specs.Prelude.{ℕ, ◌≡◌, ◌⊎◌, ◌<◌, ◌==◌, false, length, Some, None, option_map};
ghost use Rattle.std.specs.Result.{result_err};
ghost use Rattle.std.specs.Str.Lines.{lines};
ghost use Rattle.dms_text.specs.Lines.{kept_lines};
ghost use Rattle.dms_face.specs.Fit.{checked_text};
ghost use Rattle.dms_sign_text.specs.Causes.{first_cause};
ghost use Rattle.dms_sign_text.specs.Description.{Description, SpellsSign};
ghost use Rattle.dms_sign_text.specs.RefusedLine.{all_numbered, IsRefusedLine};
ghost use Rattle.dms_centre_text.specs.CommandForm.{command_cause};
ghost use Rattle.wisangub_c_causes.specs.CommandCauses.{command_cause_numbers};
ghost use Rattle.wisangub_c_causes.specs.LineCauses.{description_cause};
ghost use Rattle.wisangub_c_causes.specs.TextCauses.{text_cause, text_cause_words};
ghost use Rattle.wisangub_c_causes.specs.Telling.{cause_words, command_words, told_answer, told_buffer};
ghost use Rattle.wisangub_c_causes.specs.Telling.{IsWhyNotShown};
ghost use Rattle.wisangub_c_causes.specs.declared.text_causes.TextRefusal.{TextRefusal};
ghost use Rattle.wisangub_c.specs.Answers.{done, nothing_sent, too_small, no_memory, unless_memory, put_first, size_of};

use std::alloc::Global;
use wisangub_c_causes::{CauseNumbers, TextCause, tell_command, tell_description, tell_text};
use wisangub_c_places::SignHandle;

/// Why a description is refused: the line and the first cause in numbers, and the cause in words. Nothing, where it is
/// a sign's.
#[unsafe(no_mangle)]
pub extern "C" fn wisangub_description_cause_at(
    alloc: Global,
    text: &[u8],
    cause: &mut CauseNumbers,
    words: &mut [u8],
    size: &mut usize,
) -> u32
    ensures answer { (result ≡ done) ⊎ ((result ≡ nothing_sent) ⊎ ((result ≡ too_small) ⊎ (result ≡ no_memory))) }
    ensures sign { result ≡ nothing_sent → (it : Description) × SpellsSign (kept_lines text.now) it }
    ensures cause { result ≡ done → (line : ℕ) × IsRefusedLine (all_numbered (lines text.now)) line
        × (Some cause.new ≡ option_map (description_cause line) (first_cause (kept_lines text.now))) }
    ensures words { result ≡ done
        → Some words.new ≡ option_map (λ told. put_first told words.old) (cause_words text.now) }
    ensures size { result ≡ done → Some size.new ≡ option_map length (cause_words text.now) }
    ensures needed { result ≡ too_small
        → (Some size.new ≡ option_map length (cause_words text.now)) × (length words.old < size.new) }
    ensures nothing { result ≡ nothing_sent → size.new ≡ 0 }
    ensures unchanged { (result == done) ≡ false → (cause.new ≡ cause.old) × (words.new ≡ words.old) }
    ensures memory { result ≡ no_memory → size.new ≡ size.old }
{
    tell_description(alloc, text, cause, words, size)
}

/// Why a text can not be shown on the sign's face under the face's own defaults, in numbers and in words. Nothing,
/// where it can be shown.
#[unsafe(no_mangle)]
pub extern "C" fn wisangub_sign_text_cause_at(
    alloc: Global,
    sign: &mut SignHandle,
    text: &[u8],
    cause: &mut TextCause,
    words: &mut [u8],
    size: &mut usize,
) -> u32
    ensures same { sign.new.value ≡ sign.old.value }
    ensures answer { (result ≡ done) ⊎ ((result ≡ nothing_sent) ⊎ ((result ≡ too_small) ⊎ (result ≡ no_memory))) }
    ensures shown { result ≡ nothing_sent
        → result_err (checked_text sign.old.value.agent.sign.config.face text.now) ≡ None }
    ensures told { result ≡ done → (why : TextRefusal)
        × IsWhyNotShown sign.old.value.agent.sign.config.face text.now why × (cause.new ≡ text_cause why)
        × (words.new ≡ put_first (text_cause_words why) words.old) × (size.new ≡ length (text_cause_words why)) }
    ensures needed { result ≡ too_small → (why : TextRefusal)
        × IsWhyNotShown sign.old.value.agent.sign.config.face text.now why
        × (size.new ≡ length (text_cause_words why)) × (length words.old < size.new) }
    ensures nothing { result ≡ nothing_sent → size.new ≡ 0 }
    ensures unchanged { (result == done) ≡ false → (cause.new ≡ cause.old) × (words.new ≡ words.old) }
    ensures memory { result ≡ no_memory → size.new ≡ size.old }
{
    tell_text(alloc, sign.as_mut().sign().face(), text, cause, words, size)
}

/// Why a line spells no command of a central system, in numbers and in words. Nothing, where it spells one.
#[unsafe(no_mangle)]
pub extern "C" fn wisangub_command_cause_at(
    alloc: Global,
    line: &[u8],
    cause: &mut CauseNumbers,
    words: &mut [u8],
    size: &mut usize,
) -> u32
    ensures answer { result ≡ unless_memory result no_memory
        (told_answer (command_words line.now) (length words.old)) }
    ensures size { size.new ≡ unless_memory result size.old (size_of (command_words line.now)) }
    ensures words { words.new ≡ unless_memory result words.old (told_buffer (command_words line.now) words.old) }
    ensures cause { result ≡ done → Some cause.new ≡ option_map command_cause_numbers (command_cause line.now) }
    ensures unchanged { (result == done) ≡ false → cause.new ≡ cause.old }
{
    tell_command(alloc, line, cause, words, size)
}
