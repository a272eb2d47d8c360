//! Why a line is no command: without memory, and in numbers.

ghost use Rattle.std.specs.Prelude.{◌≡◌, option_map};
ghost use Rattle.dms_text.specs.Words.{words_of};
ghost use Rattle.dms_text_forms.specs.Form.{word_fault};
ghost use Rattle.dms_centre_text.specs.declared.cause.CommandCause.TheVariants as causes;
ghost use Rattle.dms_centre_text.specs.CommandForm.{command_cause};
ghost use Rattle.wisangub_c_causes.specs.CommandCauses.{whole_form, command_cause_numbers};

use crate::cause::CauseNumbers;
use crate::line_causes::of_first_word;
use crate::word_causes::of_word;
use dms_centre_text::{CommandCause, CommandWord};
use dms_text::Words;
use dms_text_forms::{Keyword, Wanted, WordName, word_fault};

/// What the words of a command's line are to be, its keyword too.
fn whole_form(keyword: CommandWord) -> &'static [Wanted]
    ensures { result.now ≡ whole_form keyword }
{
    match keyword {
        CommandWord::Publish => &[
            Wanted::Keyword(Keyword::Publish),
            Wanted::Number(0, 255),
            Wanted::Number(0, 65535),
            Wanted::Octets(WordName::Text),
            Wanted::Octets(WordName::Owner),
            Wanted::Number(0, 255),
            Wanted::Number(0, 255),
            Wanted::Number(0, 255),
            Wanted::Number(0, 65535),
            Wanted::Number(0, 255),
            Wanted::Address,
        ],
        CommandWord::Blank => &[
            Wanted::Keyword(Keyword::Blank),
            Wanted::Number(0, 65535),
            Wanted::Number(0, 65535),
            Wanted::Number(0, 255),
            Wanted::Address,
        ],
        CommandWord::Activate => &[Wanted::Keyword(Keyword::Activate), Wanted::Code],
    }
}

/// Why a line is no command of a central system: nothing where it is one.
pub fn command_refusal(line: &[u8]) -> Option<CommandCause>
    ensures { result ≡ command_cause line.now }
{
    let Some((word, _)) = Words::of(line).next_word() else {
        return Some(CommandCause::Keyword);
    };
    let Some(keyword) = CommandWord::of(word) else {
        return Some(CommandCause::Keyword);
    };
    fault_of(keyword, line)
}

/// The first word of a line that is not what is wanted of a command with this keyword.
fn fault_of(keyword: CommandWord, line: &[u8]) -> Option<CommandCause>
    ensures { result ≡ option_map causes.Word (word_fault (whole_form keyword) (words_of line.now)) }
{
    word_fault(whole_form(keyword), line).map(CommandCause::Word)
}

/// Why a line is no command, in numbers: it is the first line.
pub fn command_cause_numbers(cause: CommandCause) -> CauseNumbers
    ensures { result ≡ command_cause_numbers cause }
{
    match cause {
        CommandCause::Keyword => of_first_word(1),
        CommandCause::Word(fault) => of_word(1, fault),
    }
}
