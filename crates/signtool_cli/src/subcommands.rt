//! The program's subcommands, their words and their help.

use crate::word::{Flag, Valued, WantedWord, Word, arg};
use clap::Command;
use std::alloc::{AllocError, Global};

/// Which sign answers, and where the manual is.
const WHICH_SIGN: &str =
    "Where --sign is not given the bench sign answers: 23 columns and 14 rows, with the characters 1 A B [ ] and the \
     permanent message B.\nWith --sign the standard input describes the sign: signtool check --sign TEXT < FILE\nThe \
     manual is wisangub-signtool(1), or `The program` of docs/PROFILE.md.";

/// Where the manual is: the last line of each help.
const MANUAL: &str = "The manual is wisangub-signtool(1), or `The program` of docs/PROFILE.md.";

/// A subcommand.
#[derive(Clone, Copy)]
struct Subcommand {
    name: &'static str,
    /// What it does.
    about: &'static str,
    /// Its words and options, in the order of its help.
    words: &'static [Word],
}

/// The program's subcommands, in the order of its help.
const SUBCOMMANDS: [Subcommand; 10] = [
    Subcommand {
        name: "answer",
        about: "Prints the sign's reply to a datagram",
        words: &[Word::Flag(Flag::Sign), Word::Wanted(WantedWord::Datagram)],
    },
    Subcommand {
        name: "check",
        about: "Prints the number of a text's pages on the sign, or the text's fault",
        words: &[
            Word::Flag(Flag::Sign),
            Word::Flag(Flag::Json),
            Word::Wanted(WantedWord::Text),
        ],
    },
    Subcommand {
        name: "pages",
        about: "Prints the pages of a text on the sign, cell by cell, or the text's fault",
        words: &[
            Word::Flag(Flag::Sign),
            Word::Flag(Flag::Svg),
            Word::Valued(Valued::Page),
            Word::Wanted(WantedWord::Text),
        ],
    },
    Subcommand {
        name: "code",
        about: "Prints a message's checksum and the code that activates it",
        words: &[
            Word::Wanted(WantedWord::RowMemory),
            Word::Wanted(WantedWord::Number),
            Word::Wanted(WantedWord::Text),
            Word::Flag(Flag::Beacon),
            Word::Flag(Flag::Pixel),
            Word::Flag(Flag::Swapped),
            Word::Valued(Valued::Duration),
            Word::Valued(Valued::Priority),
            Word::Valued(Valued::Address),
        ],
    },
    Subcommand {
        name: "activation",
        about: "Prints the code that activates the message of a checksum",
        words: &[
            Word::Wanted(WantedWord::CodeMemory),
            Word::Wanted(WantedWord::Number),
            Word::Wanted(WantedWord::Checksum),
            Word::Flag(Flag::Swapped),
            Word::Valued(Valued::Duration),
            Word::Valued(Valued::Priority),
            Word::Valued(Valued::Address),
        ],
    },
    Subcommand {
        name: "decode",
        about: "Prints the fields of a datagram, or its fault",
        words: &[
            Word::Flag(Flag::Spaced),
            Word::Flag(Flag::Json),
            Word::Wanted(WantedWord::Datagram),
        ],
    },
    Subcommand {
        name: "items",
        about: "Prints the items of a text with their offsets in octets, or the text's fault",
        words: &[Word::Flag(Flag::Json), Word::Wanted(WantedWord::Text)],
    },
    Subcommand {
        name: "replay",
        about: "Runs the script on the standard input, and prints the report",
        words: &[],
    },
    Subcommand {
        name: "sign",
        about: "Is a sign: answers each line of the standard input, as `datagram HEX` or `tick`",
        words: &[Word::Flag(Flag::Sign), Word::Flag(Flag::Restore)],
    },
    Subcommand {
        name: "centre",
        about: "Is a sign's central system: answers each line of the standard input, as `publish ..` or `tick`",
        words: &[Word::Flag(Flag::Sign), Word::Flag(Flag::Restore)],
    },
];

/// The program with its subcommands.
pub(crate) fn command<'a>(alloc: Global) -> Result<Command<'a>, AllocError> {
    let mut command = Command::new(alloc, "signtool")
        .about("A dynamic message sign's controller on the command line")
        .after_help(WHICH_SIGN)
        .subcommand_required(true)
        .arg_required_else_help(true)
        .arg(arg(alloc, Word::Flag(Flag::Version)))?;
    for subcommand in &SUBCOMMANDS {
        command = command.subcommand(with_words(alloc, subcommand)?)?;
    }
    Ok(command)
}

/// A subcommand with its words and options.
fn with_words<'a>(alloc: Global, subcommand: &Subcommand) -> Result<Command<'a>, AllocError> {
    let mut command = Command::new(alloc, subcommand.name)
        .about(subcommand.about)
        .after_help(MANUAL);
    for word in subcommand.words {
        command = command.arg(arg(alloc, *word))?;
    }
    Ok(command)
}
