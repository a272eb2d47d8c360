//! The words and the options of the program's subcommands, and their help.

use clap::{Arg, ArgAction};
use std::alloc::Global;

/// A word or an option of a subcommand.
#[derive(Clone, Copy)]
pub(crate) enum Word {
    Wanted(WantedWord),
    Flag(Flag),
    Valued(Valued),
}

/// A word that has to stand.
#[derive(Clone, Copy)]
pub(crate) enum WantedWord {
    Datagram,
    Text,
    /// The type of memory of a row that has a text of its own.
    RowMemory,
    /// The type of memory that a code names.
    CodeMemory,
    Number,
    Checksum,
}

/// An option without a value.
#[derive(Clone, Copy)]
pub(crate) enum Flag {
    /// The sign is the one that the standard input describes.
    Sign,
    /// The sign, or its central system, begins in the state that the standard input says.
    Restore,
    Json,
    Svg,
    Spaced,
    Beacon,
    Pixel,
    Swapped,
    Version,
}

/// An option with a value.
#[derive(Clone, Copy)]
pub(crate) enum Valued {
    Page,
    Duration,
    Priority,
    Address,
}

/// A word or an option, as clap has it.
pub(crate) fn arg<'a>(alloc: Global, word: Word) -> Arg<'a> {
    match word {
        Word::Wanted(wanted) => wanted.arg(alloc),
        Word::Flag(flag) => flag.arg(alloc),
        Word::Valued(valued) => valued.arg(alloc),
    }
}

impl WantedWord {
    fn arg<'a>(self, alloc: Global) -> Arg<'a> {
        let (name, help) = self.name_and_help();
        Arg::new(alloc, name).required(true).help(help)
    }

    fn name_and_help<'a>(self) -> (&'a str, &'a str) {
        match self {
            WantedWord::Datagram => (
                "HEX",
                "the datagram, two hexadecimal digits an octet, with nothing between octets",
            ),
            WantedWord::Text => ("TEXT", "the message's text, at most 512 octets"),
            WantedWord::RowMemory => (
                "TYPE",
                "the memory type: 2 permanent, 3 changeable, 4 volatile",
            ),
            WantedWord::CodeMemory => (
                "MEMORY",
                "the memory type: 2 permanent, 3 changeable, 4 volatile, 5 what is shown, 7 blank",
            ),
            WantedWord::Number => ("NUMBER", "the message's number, 1 to 65535"),
            WantedWord::Checksum => (
                "CHECKSUM",
                "the message's checksum, four hexadecimal digits; 0000 for a blank message",
            ),
        }
    }
}

impl Flag {
    fn arg<'a>(self, alloc: Global) -> Arg<'a> {
        let (name, help) = self.name_and_help();
        Arg::new(alloc, name)
            .long(name)
            .action(ArgAction::SetTrue)
            .help(help)
    }

    fn name_and_help<'a>(self) -> (&'a str, &'a str) {
        match self {
            Flag::Sign => (
                "sign",
                "the sign that the standard input describes, in place of the bench sign, which is 23 by 14 and has \
                 the characters 1 A B [ ]",
            ),
            Flag::Restore => (
                "restore",
                "the state that the standard input says first, after a description: the lines that `save` answers, \
                 up to `end`",
            ),
            Flag::Json => ("json", "one object of JSON in place of lines"),
            Flag::Svg => (
                "svg",
                "a picture (SVG), which a browser plays as the sign does",
            ),
            Flag::Spaced => (
                "spaced",
                "spaces and colons may stand between octets, as in Wireshark's copies",
            ),
            Flag::Beacon => ("beacon", "the beacon is on"),
            Flag::Pixel => ("pixel", "the pixel service is on"),
            Flag::Swapped => ("swapped", "a checksum has its low octet first"),
            Flag::Version => ("version", "Print the program's name and version"),
        }
    }
}

impl Valued {
    fn arg<'a>(self, alloc: Global) -> Arg<'a> {
        let (name, value, help) = self.names_and_help();
        let arg = Arg::new(alloc, name)
            .long(name)
            .value_name(value)
            .help(help);
        match self {
            Valued::Page => arg,
            Valued::Duration => arg.default_value("65535"),
            Valued::Priority => arg.default_value("255"),
            Valued::Address => arg.default_value("0.0.0.0"),
        }
    }

    /// Its name, what help calls its value, and its help.
    fn names_and_help<'a>(self) -> (&'a str, &'a str, &'a str) {
        match self {
            Valued::Page => (
                "page",
                "K",
                "one page alone, 1 to 6; a picture of it does not move",
            ),
            Valued::Duration => (
                "duration",
                "MINUTES",
                "how long it is shown, 0 to 65535 minutes; 65535 is without end",
            ),
            Valued::Priority => ("priority", "PRIORITY", "the activation priority, 0 to 255"),
            Valued::Address => ("address", "A.B.C.D", "the source address"),
        }
    }
}
