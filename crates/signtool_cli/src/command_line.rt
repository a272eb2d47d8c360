//! The command line as a call.

use crate::numbers::{DURATION, MEMORY, NUMBER, NumberWord, PAGE, PRIORITY, TYPE, number};
use crate::subcommands::command;
use clap::ArgMatches;
use clap::error::ErrorKind;
use signtool_calls::{
    ActivationWords, Call, CodeWords, Drawing, Form, MessageName, SignWanted, StateWanted,
    TableRow, TermWords,
};
use std::alloc::{AllocError, Global};
use std::convert::AsStr;
use std::fmt;

/// Why a command line is no call.
#[derive(Debug, Drop)]
pub enum Usage {
    /// It is at fault, or asks for help: the lines that say so.
    Line(String),
    /// It is at fault, and `--sign` is followed by a word, as if that were the file of a description.
    NamesFile(String),
    /// It has no subcommand, or one without its words.
    NoCall,
    /// A code names no message of the type of memory that it has.
    NoMemory,
    /// No memory.
    Memory,
}

impl fmt::Display for Usage {
    ghost use Rattle.std.specs.Prelude.{Some};
    ghost use Rattle.signtool_cli.specs.UsageText.{usage_text};

    ghost output = { λ usage. Some (usage_text usage) };

    fn fmt<W: fmt::Write>(&self, f: &mut fmt::Formatter<W>) -> fmt::Result {
        match self {
            Usage::Line(lines) => f.write_str(lines.as_str()),
            Usage::NamesFile(lines) => {
                writeln!(
                    f,
                    "{lines}\nhint: the description is read from standard input: < FILE"
                )
            }
            Usage::NoCall => writeln!(f, "a subcommand and its words are wanted"),
            Usage::NoMemory => writeln!(f, "error: a memory type is 2, 3, 4, 5 or 7"),
            Usage::Memory => writeln!(f, "error: out of memory"),
        }
    }
}

impl From<AllocError> for Usage {
    fn from(_: AllocError) -> Usage {
        Usage::Memory
    }
}

/// The lines that say what is wrong with these words, or the help.
fn lines_of<S: AsStr>(alloc: Global, words: &[S], error: &clap::Error) -> Usage {
    let is_word_too_many = matches!(
        error.kind(),
        ErrorKind::UnknownArgument | ErrorKind::TooManyValues
    );
    let names_file = is_word_too_many && names_file(words);
    match format!(in alloc; "{error}") {
        Ok(lines) if names_file => Usage::NamesFile(lines),
        Ok(lines) => Usage::Line(lines),
        Err(_) => Usage::Memory,
    }
}

/// Whether a word follows `--sign`, after `=` or as the next one.
fn names_file<S: AsStr>(words: &[S]) -> bool {
    let mut is_after_sign = false;
    for word in words {
        let word = word.as_str();
        if word.starts_with("--sign=") || is_after_sign && !word.starts_with("-") {
            return true;
        }
        is_after_sign = word == "--sign";
    }
    false
}

/// Reads the command line, of which the first word is the program's name.
pub fn asked<S: AsStr>(alloc: Global, words: &[S]) -> Result<Call<'_>, Usage> {
    if let [_, word] = words
        && word.as_str() == "--version"
    {
        return Ok(Call::Version);
    }
    match command(alloc)?.try_get_matches_from(words) {
        Ok(matches) => call_of(alloc, &matches),
        Err(error) => Err(lines_of(alloc, words, &error)),
    }
}

/// The call that words are, as clap has read them.
fn call_of<'a>(alloc: Global, matches: &ArgMatches<'a>) -> Result<Call<'a>, Usage> {
    if matches.get_flag("version") {
        return Ok(Call::Version);
    }
    let Some((name, words)) = matches.subcommand() else {
        return Err(Usage::NoCall);
    };
    match name {
        "pages" => pages(alloc, words),
        "code" => Ok(Call::Code(code_words(alloc, words)?)),
        "activation" => Ok(Call::Activation(activation_words(alloc, words)?)),
        _ => call_without_numbers(name, words).ok_or(Usage::NoCall),
    }
}

/// The call of a subcommand that takes no number.
fn call_without_numbers<'a>(name: &str, words: &ArgMatches<'a>) -> Option<Call<'a>> {
    match name {
        "answer" => answer(words),
        "check" => check(words),
        "decode" => decode(words),
        "items" => items(words),
        "replay" => Some(Call::Replay),
        "sign" => Some(Call::Sign {
            sign: sign_wanted(words),
            state: state_wanted(words),
        }),
        "centre" => Some(Call::Centre {
            sign: sign_wanted(words),
            state: state_wanted(words),
        }),
        _ => None,
    }
}

fn answer<'a>(words: &ArgMatches<'a>) -> Option<Call<'a>> {
    Some(Call::Answer {
        hex: words.get_str("HEX")?,
        sign: sign_wanted(words),
    })
}

fn check<'a>(words: &ArgMatches<'a>) -> Option<Call<'a>> {
    Some(Call::Check {
        text: words.get_str("TEXT")?,
        sign: sign_wanted(words),
        form: wanted_form(words),
    })
}

fn pages<'a>(alloc: Global, words: &ArgMatches<'a>) -> Result<Call<'a>, Usage> {
    Ok(Call::Pages {
        text: words.get_str("TEXT").ok_or(Usage::NoCall)?,
        sign: sign_wanted(words),
        drawing: wanted_drawing(alloc, words)?,
    })
}

fn decode<'a>(words: &ArgMatches<'a>) -> Option<Call<'a>> {
    Some(Call::Decode {
        hex: words.get_str("HEX")?,
        spaced: words.get_flag("spaced"),
        form: wanted_form(words),
    })
}

fn items<'a>(words: &ArgMatches<'a>) -> Option<Call<'a>> {
    Some(Call::Items {
        text: words.get_str("TEXT")?,
        form: wanted_form(words),
    })
}

/// Which sign the words of a subcommand name.
fn sign_wanted(words: &ArgMatches<'_>) -> SignWanted {
    if words.get_flag("sign") {
        SignWanted::Described
    } else {
        SignWanted::Bench
    }
}

/// In which state the words of a subcommand want a sign, or its central system, to begin.
fn state_wanted(words: &ArgMatches<'_>) -> StateWanted {
    if words.get_flag("restore") {
        StateWanted::Restored
    } else {
        StateWanted::New
    }
}

/// In which form the words of a subcommand want its answer.
fn wanted_form(words: &ArgMatches<'_>) -> Form {
    if words.get_flag("json") {
        Form::Json
    } else {
        Form::Lines
    }
}

/// How the words of `pages` want them drawn.
fn wanted_drawing(alloc: Global, words: &ArgMatches<'_>) -> Result<Drawing, Usage> {
    let page = match words.get_str(PAGE.id) {
        Some(word) => Some(octet(number_of(alloc, word, PAGE)?)?),
        None => None,
    };
    Ok(Drawing {
        svg: words.get_flag("svg"),
        page,
    })
}

fn code_words<'a>(alloc: Global, code: &ArgMatches<'a>) -> Result<CodeWords<'a>, Usage> {
    let memory = octet(wanted_number(alloc, code, TYPE)?)?;
    let number = wanted_number(alloc, code, NUMBER)?;
    let terms = term_words(alloc, code)?;
    Ok(CodeWords {
        row: TableRow::of(memory, number).ok_or(Usage::NoCall)?,
        text: code.get_str("TEXT").ok_or(Usage::NoCall)?,
        beacon: code.get_flag("beacon"),
        pixel: code.get_flag("pixel"),
        terms,
    })
}

fn activation_words<'a>(
    alloc: Global,
    words: &ArgMatches<'a>,
) -> Result<ActivationWords<'a>, Usage> {
    let memory = octet(wanted_number(alloc, words, MEMORY)?)?;
    let number = wanted_number(alloc, words, NUMBER)?;
    let terms = term_words(alloc, words)?;
    Ok(ActivationWords {
        message: MessageName::of(memory, number).ok_or(Usage::NoMemory)?,
        checksum: words.get_str("CHECKSUM").ok_or(Usage::NoCall)?,
        terms,
    })
}

/// How the words of a subcommand want a message activated.
fn term_words<'a>(alloc: Global, words: &ArgMatches<'a>) -> Result<TermWords<'a>, Usage> {
    Ok(TermWords {
        swapped: words.get_flag("swapped"),
        duration: wanted_number(alloc, words, DURATION)?,
        priority: octet(wanted_number(alloc, words, PRIORITY)?)?,
        address: words.get_str("address").ok_or(Usage::NoCall)?,
    })
}

/// The number that a word or an option of a subcommand has.
fn wanted_number(alloc: Global, words: &ArgMatches<'_>, wanted: NumberWord) -> Result<u16, Usage> {
    match words.get_str(wanted.id) {
        Some(word) => number_of(alloc, word, wanted),
        None => Err(Usage::NoCall),
    }
}

/// The octet of a number that is wanted below 256.
fn octet(number: u16) -> Result<u8, Usage> {
    u8::try_from(number).or(Err(Usage::NoCall))
}

/// The number that this word spells.
fn number_of(alloc: Global, word: &str, wanted: NumberWord) -> Result<u16, Usage> {
    match number(word, wanted.low, wanted.high) {
        Some(number) => Ok(number),
        None => Err(no_number(alloc, word, wanted)),
    }
}

/// What is said of a word that is not the number that is wanted.
fn no_number(alloc: Global, word: &str, wanted: NumberWord) -> Usage {
    let (shown, low, high) = (wanted.shown, wanted.low, wanted.high);
    match format!(in alloc;
        "error: invalid value '{word}' for '{shown}': a number from {low} to {high}, in digits alone, is wanted\n"
    ) {
        Ok(lines) => Usage::Line(lines),
        Err(_) => Usage::Memory,
    }
}
