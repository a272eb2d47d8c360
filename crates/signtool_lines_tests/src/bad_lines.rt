//! Lines that are no call of a sign nor of a central system, and what is said of them.

/// Of a line that begins with no word of a call.
pub const NO_CALL: &str = "bad line no call begins with this word\n";

/// Of a line with a second word where none is wanted.
pub const SECOND_WORD: &str = "bad line word 2: no more words are wanted\n";

/// Of a line with a third word where none is wanted.
pub const THIRD_WORD: &str = "bad line word 3: no more words are wanted\n";

/// Of a line with a space behind its first word, and none after it.
pub const SECOND_SPACE: &str = "bad line word 2: two spaces, or a space at an end of the line\n";

/// Of a line with a space behind its second word, and none after it.
pub const THIRD_SPACE: &str = "bad line word 3: two spaces, or a space at an end of the line\n";

const NO_DATAGRAM: &str = "bad line word 2: a datagram in hexadecimal is wanted\n";

/// The lines, each with its answer.
pub const BAD_LINES: [(&str, &str); 32] = [
    // no word
    ("", NO_CALL),
    // no datagram
    (
        "datagram",
        "bad line word 2: the line ends where a datagram in hexadecimal is wanted\n",
    ),
    // a capital letter
    ("Datagram 00", NO_CALL),
    ("Datagram -", NO_CALL),
    // another word
    ("datagrams -", NO_CALL),
    // an odd number of digits
    ("datagram 0", NO_DATAGRAM),
    // a letter that is no digit
    ("datagram 0g", NO_DATAGRAM),
    // two datagrams
    ("datagram 00 00", THIRD_WORD),
    ("datagram - -", THIRD_WORD),
    // a blank at the end
    ("datagram - ", THIRD_SPACE),
    // seconds after a tick
    ("tick 1", SECOND_WORD),
    // a blank at the end
    ("tick ", SECOND_SPACE),
    // a carriage return
    ("tick\r", NO_CALL),
    // a blank before the word
    (" tick", NO_CALL),
    // another word
    ("tock", NO_CALL),
    // a word after `save`
    ("save 1", SECOND_WORD),
    // an answer
    ("ok", NO_CALL),
    // another answer
    ("bad line", NO_CALL),
    ("tick -", SECOND_WORD),
    ("Tick", NO_CALL),
    ("saves", NO_CALL),
    ("sign-tick", NO_CALL),
    ("centre-tick", NO_CALL),
    ("centre-restart", NO_CALL),
    ("to-sign 0", NO_CALL),
    ("to-centre 0", NO_CALL),
    ("forge-sign 00", NO_CALL),
    ("forge-centre 00", NO_CALL),
    ("bench", NO_CALL),
    ("end", NO_CALL),
    ("# tick", NO_CALL),
    (" ", NO_CALL),
];
