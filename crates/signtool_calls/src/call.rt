//! What the program can be asked to do.

use crate::message_name::MessageName;
use crate::table_row::TableRow;

/// What the program is asked to do.
#[derive(Clone, Copy, Debug)]
pub enum Call<'a> {
    /// The sign's reply to a datagram in hexadecimal digits.
    Answer {
        hex: &'a str,
        sign: SignWanted,
    },
    /// The number of a text's pages, or its fault.
    Check {
        text: &'a str,
        sign: SignWanted,
        form: Form,
    },
    /// The pages of a text, or its fault.
    Pages {
        text: &'a str,
        sign: SignWanted,
        drawing: Drawing,
    },
    /// The fields of a datagram in hexadecimal digits, or its fault.
    Decode {
        hex: &'a str,
        /// Whether spaces and colons may stand between octets.
        spaced: bool,
        form: Form,
    },
    /// The items of a text, or its fault.
    Items {
        text: &'a str,
        form: Form,
    },
    /// The program's name and version.
    Version,
    /// The checksum of a message, and the code that activates it.
    Code(CodeWords<'a>),
    /// The code that activates a message of this checksum.
    Activation(ActivationWords<'a>),
    /// The report of the script on the standard input.
    Replay,
    /// The answers of a sign to the lines on the standard input, each before the next line is read.
    Sign {
        sign: SignWanted,
        state: StateWanted,
    },
    /// The answers of a sign's central system to the lines on the standard input, each before the next line is read.
    Centre {
        sign: SignWanted,
        state: StateWanted,
    },
}

/// Which sign a call is about.
#[derive(Clone, Copy, Debug, PartialEq, Eq)]
pub enum SignWanted {
    /// The bench sign.
    Bench,
    /// The sign that the standard input describes.
    Described,
}

/// In which state a sign, or its central system, begins a conversation.
#[derive(Clone, Copy, Debug, PartialEq, Eq)]
pub enum StateWanted {
    /// As it is made.
    New,
    /// That of the text that the standard input has next.
    Restored,
}

/// In which form an answer is printed.
#[derive(Clone, Copy, Debug, PartialEq, Eq)]
pub enum Form {
    /// As lines of words.
    Lines,
    /// As one object of JSON.
    Json,
}

/// How pages are drawn, and which.
#[derive(Clone, Copy, Debug, PartialEq, Eq)]
pub struct Drawing {
    /// As a picture (SVG), and not cell by cell.
    pub svg: bool,
    /// One page alone, counted from 1; a picture of it does not move.
    pub page: Option<u8>,
}

/// A message of the table, and how it is to be activated.
#[derive(Clone, Copy, Debug)]
pub struct CodeWords<'a> {
    pub row: TableRow,
    pub text: &'a str,
    pub beacon: bool,
    pub pixel: bool,
    pub terms: TermWords<'a>,
}

/// A message by its checksum, and how it is to be activated.
#[derive(Clone, Copy, Debug)]
pub struct ActivationWords<'a> {
    pub message: MessageName,
    /// As it was written: four hexadecimal digits.
    pub checksum: &'a str,
    pub terms: TermWords<'a>,
}

/// How a message is to be activated.
#[derive(Clone, Copy, Debug)]
pub struct TermWords<'a> {
    /// Whether a checksum has its low octet first.
    pub swapped: bool,
    /// The minutes that it is shown; 65535 is without end.
    pub duration: u16,
    pub priority: u8,
    /// As it was written: four numbers with dots between them.
    pub address: &'a str,
}
