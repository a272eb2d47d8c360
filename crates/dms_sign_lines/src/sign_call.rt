//! What a line asks of a live sign.

ghost use Rattle.std.specs.Prelude.{◌≡◌, ◌<◌, Some, IfOk, IsSome, OnErr, option_map};
ghost use Rattle.std.specs.Result.{result_ok, result_err};
ghost use Rattle.dms_text_forms.specs.Form.{fault_from};
ghost use Rattle.dms_sign_lines.specs.SignForm.{form_after, call_cause};
ghost use Rattle.dms_sign_lines.specs.SignReading.{call_after, call_of, keyword_in};
ghost use Rattle.dms_sign_lines.specs.declared.keyword.SignKeyword.TheVariants.{Datagram};
ghost use Rattle.dms_sign_lines.specs.CallView.{call_model};

use crate::cause::SignCallCause;
use crate::keyword::SignKeyword;
use dms_text::Words;
use dms_text_causes::if_last;
use dms_text_forms::{LineWords, WordFault, WordName};
use std::alloc::{AllocError, Global};

/// What a line asks of a live sign.
#[derive(Drop)]
pub(crate) enum SignCall {
    /// `datagram OCTETS`: the sign receives these octets.
    Datagram(Vec<u8>),
    /// `tick`: a second passes.
    Tick,
    /// `ticks SECONDS`: so many seconds pass.
    Ticks(u32),
    /// `heard`: what a Get or a GetNext leaves that was answered.
    Heard,
    /// `power-lost`: the power is lost.
    PowerLost,
    /// `power-back SECONDS`: the power is back after so many seconds.
    PowerBack(u32),
    /// `show`: the pages of what is shown are asked for.
    Show,
    /// `state`: the line of what is shown is asked for.
    State,
    /// `save`: the text of the sign's state is asked for.
    Save,
}

/// The call that a line spells, or why it spells none. Memory is asked for by a datagram alone, and not where its line
/// is at fault.
#[tactic(auto, unfolding(crate::specs::SignReading::call_of, crate::specs::SignReading::keyword_in))]
pub(crate) fn call(
    alloc: Global,
    line: &[u8],
) -> Result<Result<SignCall, SignCallCause>, AllocError>
    ensures read { IfOk result (λ read. option_map call_model (result_ok read) ≡ call_of line.now) }
    ensures cause { IfOk result (λ read. result_err read ≡ call_cause line.now) }
    ensures memory { OnErr result (keyword_in line.now ≡ Some Datagram) }
    ensures spelled { OnErr result (IsSome (call_of line.now)) }
{
    let Some((word, words)) = Words::of(line).next_word() else {
        return Ok(Err(SignCallCause::Keyword));
    };
    let Some(keyword) = SignKeyword::of(word) else {
        return Ok(Err(SignCallCause::Keyword));
    };
    match call_after(alloc, keyword, LineWords { place: 2, words })? {
        Ok(call) => Ok(Ok(call)),
        Err(fault) => Ok(Err(SignCallCause::Word(fault))),
    }
}

/// The call that begins with this word and goes on with these, or the first of these that is not what is wanted.
fn call_after(
    alloc: Global,
    keyword: SignKeyword,
    words: LineWords<'_>,
) -> Result<Result<SignCall, WordFault>, AllocError>
    requires { words.place < 8 }
    ensures read { IfOk result (λ read. option_map call_model (result_ok read)
        ≡ call_after keyword words.entry.words) }
    ensures fault { IfOk result (λ read. result_err read
        ≡ fault_from words.entry.place (form_after keyword) words.entry.words) }
    ensures memory { OnErr result (keyword ≡ Datagram) }
    ensures spelled { OnErr result (IsSome (call_after keyword words.entry.words)) }
{
    match keyword {
        SignKeyword::Datagram => Ok(
            words
                .last_octets(alloc, WordName::Datagram)?
                .map(SignCall::Datagram),
        ),
        SignKeyword::Tick => Ok(if_last(words, SignCall::Tick)),
        SignKeyword::Ticks => Ok(words.last_number().map(SignCall::Ticks)),
        SignKeyword::Heard => Ok(if_last(words, SignCall::Heard)),
        SignKeyword::PowerLost => Ok(if_last(words, SignCall::PowerLost)),
        SignKeyword::PowerBack => Ok(words.last_number().map(SignCall::PowerBack)),
        SignKeyword::Show => Ok(if_last(words, SignCall::Show)),
        SignKeyword::State => Ok(if_last(words, SignCall::State)),
        SignKeyword::Save => Ok(if_last(words, SignCall::Save)),
    }
}
