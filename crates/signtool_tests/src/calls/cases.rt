//! Calls of the program and what is wanted of them. A call stands as its words after `signtool`, parted by blanks; what
//! stands between two `'` is one word.

use dms_sign_bench::states::NEW;
use signtool_calls::{Call, Drawing, Form, SignWanted, StateWanted};

/// A sign of one font, with the picture of `A` alone.
pub const SMALL_SIGN: &str = "\
size 5 7
communities public admin
rows 1 1
order swapped
has 0 0
defaults 0 1 5 5 1 2 2 10 0
first 1
font 1 height 7 space 1 line 1 version 0001
glyph 65 5 7463f8c620
end
";

/// Lines after its description.
pub const SMALL_TALK: &str = "\
show
power-lost
power-back 5
end";

/// Calls that are answered after a description: the words, and what is printed.
pub static AFTER_DESCRIPTION: [(&str, &str); 2] = [
    // of a sign
    (
        "sign --sign",
        "\
page 1 on 10 off 0 back 0
.....
.....
.....
.....
.....
.....
.....
ok
ok
ok
bad line no call begins with this word
",
    ),
    // of a central system: none of the lines is a command
    (
        "centre --sign",
        "\
bad line no call begins with this word
bad line no call begins with this word
bad line no call begins with this word
bad line no call begins with this word
",
    ),
];

/// Lines that publish a contact and a level that managers may set, and those that put their values back.
pub const KEPT_OBJECTS: &str = "\
object 1.3.6.1.2.1.1.4.0 OCTET STRING - octets 0 8
object 1.3.6.1.4.1.1206.4.2.3.7.6.0 INTEGER 7 number 0 15
";

pub const KEPT_VALUES: &str = "\
set 1.3.6.1.2.1.1.4.0 OCTET STRING 6e6f63
set 1.3.6.1.4.1.1206.4.2.3.7.6.0 INTEGER 15
";

/// A central system's state that has shown a blank, and waits for the reply to another one.
pub const WAITING: &str = "\
state 1 centre
next 3
last accepted
awaits
sends 2
ticks 1
step 7
polls 0
activate ffffff0700020000c0000201
ledger 1 ffffff0700010000c0000201 accepted
ledger 2 ffffff0700020000c0000201 waiting
end
";

/// What the central system answers to `restart` and `status` in that state.
pub const RESTARTED: &str = "\
ok
idle
last failed at step 7: the central system was restarted
ledger 1 ffffff0700010000c0000201 accepted
ledger 2 ffffff0700020000c0000201 unknown
ok
";

/// States that no central system is in: what is printed, and what is said.
pub static NO_CENTRES: [(&str, &str, &str); 4] = [
    // nothing
    (
        "",
        "state line 1\n",
        "state line 1: state 1 centre wanted\n",
    ),
    // a sign's
    (
        "state 1 sign\nend\n",
        "state line 1\n",
        "state line 1: state 1 centre wanted\n",
    ),
    // its second line is its last
    (
        "state 1 centre\nend\ntick\n",
        "state line 2\n",
        "state line 2: next and a number to 4294967295 wanted\n",
    ),
    // an entry that has the next number
    (
        "\
state 1 centre
next 3
last accepted
idle
ledger 3 ffffff0700010000c0000201 accepted
end
",
        "state line 5\n",
        "state line 5: ledger and an entry of a number from 0 to 2 wanted\n",
    ),
];

/// States that the bench sign is not in: what is printed, and what is said.
pub static NO_STATES: [(&str, &str, &str); 4] = [
    // nothing
    ("", "state line 1\n", "state line 1: state 1 sign wanted\n"),
    // it ends within its first line
    (
        "state 1 sig",
        "state line 1\n",
        "state line 1: state 1 sign wanted\n",
    ),
    // a central system's
    (
        "state 1 centre\nend\n",
        "state line 1\n",
        "state line 1: state 1 sign wanted\n",
    ),
    // its second line is its last
    (
        "state 1 sign\nend\ntick\n",
        "state line 2\n",
        "state line 2: defaults and nine numbers wanted\n",
    ),
];

/// Words that are no call, and whether what is said of them ends with how a description is given.
pub static HINTED: [(&str, bool); 6] = [
    // a file's name after `--sign`
    ("check --sign made.sign A", true),
    // a file's name in its word
    ("check --sign=made.sign A", true),
    // a file's name where no text follows
    ("sign --sign made.sign", true),
    // two texts before `--sign`
    ("check A B --sign", false),
    // two texts
    ("check A B", false),
    // no text
    ("check --sign", false),
];

/// Lines with a word that is no number of the command line, and after `|` what is said of it.
pub const NO_NUMBERS: &str = "\
code +3 1 A|'+3' for 'TYPE': a number from 2 to 4,
code 3 +1 A|'+1' for 'NUMBER': a number from 1 to 65535,
code 3 '' A|'' for 'NUMBER': a number from 1 to 65535,
code 3 1x A|'1x' for 'NUMBER': a number from 1 to 65535,
code 3 1 A --duration +5|'+5' for '--duration': a number from 0 to 65535,
code 3 1 A --duration=-0|'-0' for '--duration': a number from 0 to 65535,
code 3 1 A --priority=+5|'+5' for '--priority': a number from 0 to 255,
code 3 1 A --priority 256|'256' for '--priority': a number from 0 to 255,
pages --page +1 A|'+1' for '--page': a number from 1 to 6,
pages --page 0 A|'0' for '--page': a number from 1 to 6,
pages --page 7 A|'7' for '--page': a number from 1 to 6,
activation +3 1 9a66|'+3' for 'MEMORY': a number from 2 to 7,
";

/// Calls that print something.
pub static PRINTING: [&str; 6] = [
    // a datagram that is dropped
    "answer 30",
    // no datagram
    "answer 3",
    // a text that fits
    "check A",
    // its page
    "pages A",
    // its code
    "code 3 1 A",
    // the code of a blank message
    "activation 7 1 0000",
];

/// The page of `A` on the described sign.
const PAGE: &str = "\
page 1 on 10 off 0 back 0
.111.
1...1
1...1
11111
1...1
1...1
1...1
";

/// All pages, cell by cell.
const CELLS: Drawing = Drawing {
    svg: false,
    page: None,
};

/// The second page alone, cell by cell.
const SECOND_PAGE: Drawing = Drawing {
    svg: false,
    page: Some(2),
};

/// The check of a text on the described sign.
const CHECKED: Call<'static> = Call::Check {
    text: "A",
    sign: SignWanted::Described,
    form: Form::Lines,
};

/// The page of a text on the described sign.
const DRAWN: Call<'static> = Call::Pages {
    text: "A",
    sign: SignWanted::Described,
    drawing: CELLS,
};

/// The answer of the described sign to a datagram that ends too early.
const ANSWERED: Call<'static> = Call::Answer {
    hex: "30",
    sign: SignWanted::Described,
};

/// A conversation with the bench sign.
const TO_BENCH: Call<'static> = Call::Sign {
    sign: SignWanted::Bench,
    state: StateWanted::New,
};

/// A conversation with the bench sign in the state that is handed to it.
const TO_BENCH_AGAIN: Call<'static> = Call::Sign {
    sign: SignWanted::Bench,
    state: StateWanted::Restored,
};

/// A conversation with a central system that has the bench sign's settings.
const TO_CENTRE: Call<'static> = Call::Centre {
    sign: SignWanted::Bench,
    state: StateWanted::New,
};

/// The same in the state that is handed to it.
const TO_CENTRE_AGAIN: Call<'static> = Call::Centre {
    sign: SignWanted::Bench,
    state: StateWanted::Restored,
};

/// Calls that read the whole standard input before anything is printed.
pub const READ_FIRST: [Call<'static>; 4] = [CHECKED, DRAWN, ANSWERED, Call::Replay];

/// Calls that read a description, and then a line at a time.
pub const READ_BY_LINES: [Call<'static>; 4] = [
    Call::Sign {
        sign: SignWanted::Described,
        state: StateWanted::New,
    },
    Call::Sign {
        sign: SignWanted::Described,
        state: StateWanted::Restored,
    },
    Call::Centre {
        sign: SignWanted::Described,
        state: StateWanted::New,
    },
    Call::Centre {
        sign: SignWanted::Described,
        state: StateWanted::Restored,
    },
];

/// How many `#` the standard input gives, whether it fails then, and what is printed.
pub static LENGTHS: [(usize, bool, &str); 4] = [
    // it fails at once
    (0, true, "read\n"),
    // it fails after the most octets
    (1_048_576, true, "read\n"),
    // it ends an octet later
    (1_048_577, false, "too long\n"),
    // it ends after the most octets, a comment that no line follows
    (1_048_576, false, "line 2\n"),
];

/// Conversations in which a long line comes, whether the input fails in it, and what is printed.
pub const LONG_LINES: [(Call<'static>, bool, &str); 4] = [
    // to a sign, a line that ends
    (TO_BENCH, false, "bad line\n"),
    // to a central system
    (TO_CENTRE, false, "bad line\n"),
    // to a sign, a line in which the input fails
    (TO_BENCH, true, "read\n"),
    // to a central system
    (TO_CENTRE, true, "read\n"),
];

/// Calls that print line after line: the standard input, and what is printed.
pub const BY_LINES: [(Call<'static>, &str, &str); 3] = [
    // a report
    (
        Call::Replay,
        "bench",
        "\
events 0
sent 0 0
shown 7 1 0000 mode 10 priority 1 remaining 65535 text -
",
    ),
    // answers of a sign
    (
        TO_BENCH,
        "\
tick
state",
        "\
ok
shown 7 1 0000 mode 10 priority 1 remaining 65535 text -
ok
",
    ),
    // answers of a central system
    (
        TO_CENTRE,
        "\
status

restart",
        "\
idle
last none
ok
bad line no call begins with this word
ok
",
    ),
];

/// Calls in which memory may be refused: the standard input, what is printed where it is not, and the status.
pub const ALLOCATING: [(Call<'static>, &str, &str, u8); 10] = [
    // a text is checked
    (CHECKED, SMALL_SIGN, "ok pages 1\n", 0),
    // its page is drawn
    (DRAWN, SMALL_SIGN, PAGE, 0),
    // the second page is drawn
    (
        Call::Pages {
            text: "[pt2o0][np]A",
            sign: SignWanted::Described,
            drawing: SECOND_PAGE,
        },
        SMALL_SIGN,
        "\
page 2 on 2 off 0 back 0
.111.
1...1
1...1
11111
1...1
1...1
1...1
",
        0,
    ),
    // a Get of nothing by `public`
    (
        Call::Answer {
            hex: "301802010004067075626c6963a00b0201010201000201003000",
            sign: SignWanted::Bench,
        },
        "",
        "301802010004067075626c6963a20b0201010201000201003000\n",
        0,
    ),
    // no datagram
    (
        Call::Answer {
            hex: "3",
            sign: SignWanted::Described,
        },
        "",
        "not hex\n",
        2,
    ),
    // a script is replayed
    (
        Call::Replay,
        "\
bench
forge-sign 30",
        "\
events 1
sent 0 0
shown 7 1 0000 mode 10 priority 1 remaining 65535 text -
",
        0,
    ),
    // a second passes at a sign
    (TO_BENCH, "tick", "ok\n", 0),
    // a second passes at a central system
    (TO_CENTRE, "tick", "ok\n", 0),
    // a sign begins in a state
    (TO_BENCH_AGAIN, NEW, "", 0),
    // a central system begins while a request of it waits
    (TO_CENTRE_AGAIN, WAITING, "", 0),
];

/// Datagrams to the bench sign in hexadecimal, what `answer` prints of each, and its status.
pub static ANSWERS: [(&str, &str, u8); 19] = [
    // a Get of changeable 1 by `public`
    (
        "302e02010004067075626c6963a0210201010201000201003016301406102b0601040189360402030508010903010500",
        "302f02010004067075626c6963a2220201010201000201003017301506102b060104018936040203050801090301020101\n",
        0,
    ),
    // the same with its outermost length in the long form
    (
        "3082002e02010004067075626c6963a0210201010201000201003016301406102b0601040189360402030508010903010500",
        "302f02010004067075626c6963a2220201010201000201003017301506102b060104018936040203050801090301020101\n",
        0,
    ),
    // changeable 3, which is not there
    (
        "302e02010004067075626c6963a0210201010201000201003016301406102b0601040189360402030508010903030500",
        "302e02010004067075626c6963a2210201010201020201013016301406102b0601040189360402030508010903030500\n",
        0,
    ),
    // volatile 1 and changeable 2 by `admin`, in capitals
    (
        "3043020100040561646D696EA037020107020100020100302C301406102B0601040189360402030508010904010500301406102B0601040189360402030508010903020500",
        "3045020100040561646d696ea239020107020100020100302e301506102b060104018936040203050801090401020101301506102b060104018936040203050801090302020101\n",
        0,
    ),
    // two names, of which the second is not there
    (
        "304402010004067075626c6963a037020101020100020100302c301406102b0601040189360402030508010903010500301406102b0601040189360402030508010903030500",
        "304402010004067075626c6963a237020101020102020102302c301406102b0601040189360402030508010903010500301406102b0601040189360402030508010903030500\n",
        0,
    ),
    // no name
    (
        "301802010004067075626c6963a00b0201010201000201003000",
        "301802010004067075626c6963a20b0201010201000201003000\n",
        0,
    ),
    // the last octet missing
    (
        "302e02010004067075626c6963a0210201010201000201003016301406102b06010401893604020305080109030105",
        "dropped\n",
        1,
    ),
    // one octet too many
    (
        "302e02010004067075626c6963a0210201010201000201003016301406102b060104018936040203050801090301050000",
        "dropped\n",
        1,
    ),
    // GetNext from changeable 1
    (
        "302e02010004067075626c6963a1210201010201000201003016301406102b0601040189360402030508010903010500",
        "302f02010004067075626c6963a2220201010201000201003017301506102b060104018936040203050801090302020101\n",
        0,
    ),
    // GetNext from the last blank message
    (
        "302f02010004067075626c6963a1220201020201000201003017301506112b0601040189360402030508010907817f0500",
        "302c02010004067075626c6963a21f02010202010002010030143012060d2b060104018936040203050900020102\n",
        0,
    ),
    // changeable 1 is asked to be modified by `admin`
    (
        "302e020100040561646d696ea3220201010201000201003017301506102b060104018936040203050801090301020106",
        "302e020100040561646d696ea2220201010201000201003017301506102b060104018936040203050801090301020106\n",
        0,
    ),
    // and by `public`
    (
        "302f02010004067075626c6963a3220201010201000201003017301506102b060104018936040203050801090301020106",
        "302f02010004067075626c6963a2220201010201020201013017301506102b060104018936040203050801090301020106\n",
        0,
    ),
    // another community
    (
        "302f020100040770726976617465a0210201010201000201003016301406102b0601040189360402030508010903010500",
        "dropped\n",
        1,
    ),
    // no octets
    ("", "dropped\n", 1),
    // an odd number of digits
    ("302", "not hex\n", 2),
    // no digit
    ("-", "not hex\n", 2),
    // a blank between octets
    ("30 00", "not hex\n", 2),
    // a colon between octets
    ("30:00", "not hex\n", 2),
    // a blank at the end
    ("3000 ", "not hex\n", 2),
];

/// Calls on texts: the words after `signtool`, what is printed, and the status.
pub static TEXTS: [(&str, &str, u8); 10] = [
    // four characters in one line
    ("check AAAA", "ok pages 1\n", 0),
    // no text
    ("check ''", "ok pages 1\n", 0),
    // two pages
    ("check A[np]A", "ok pages 2\n", 0),
    // a line below the matrix, after a tag in capitals
    ("check [NL03]", "fault 5 at 6\n", 1),
    // a tag that is not supported
    ("check [tr1,1,5,5]", "fault 3 at 0\n", 1),
    // line justifications that go back
    ("pages [jl3]A[jl2]A", "fault 11 at 6\n", 1),
    // a code with an address of three numbers
    ("code 3 1 A --address 1.2.3", "bad address\n", 2),
    // of five
    ("code 3 1 A --address 1.2.3.4.5", "bad address\n", 2),
    // a number over 255
    ("code 3 1 A --address 256.0.0.0", "bad address\n", 2),
    // a number of four digits
    ("code 3 1 A --address 0001.0.0.0", "bad address\n", 2),
];

/// Calls that print the code of a text, the checksum that they print, and the code.
pub static CODES: [(&str, &str, &str); 6] = [
    // numbers with zeros before them
    (
        "code 03 0000001 A --duration 00065535 --priority 0255",
        "9a66",
        "ffffff0300019a6600000000",
    ),
    // the code of `A` in changeable 1
    (
        "code 3 1 A --address 192.0.2.1",
        "9a66",
        "ffffff0300019a66c0000201",
    ),
    // the same, with the octets of the checksum in the other order
    (
        "code 3 1 A --address 192.0.2.1 --swapped",
        "9a66",
        "ffffff030001669ac0000201",
    ),
    // the code of the permanent row
    ("code 2 1 B", "7502", "ffffff020001750200000000"),
    // the code of a volatile row with a beacon, for five minutes with priority 10
    (
        "code 4 65535 A --beacon --duration 5 --priority 10",
        "83be",
        "00050a04ffff83be00000000",
    ),
    // an address with digits that it does not need
    (
        "code 3 1 '' --address 001.2.3.255",
        "0f47",
        "ffffff0300010f47010203ff",
    ),
];

/// Activations that are printed or refused: the line, and after `|` what is printed and the status.
pub const ACTIVATIONS: &str = "\
activation 03 001 9a66|code ffffff0300019a6600000000|0
activation 3 1 9a66 --address 192.0.2.1|code ffffff0300019a66c0000201|0
activation 3 1 9A66 --address 192.0.2.1 --swapped|code ffffff030001669ac0000201|0
activation 2 1 7502|code ffffff020001750200000000|0
activation 4 65535 83be --duration 5 --priority 10|code 00050a04ffff83be00000000|0
activation 5 1 0000 --duration 10|code 000aff050001000000000000|0
activation 7 1 0000 --priority 255 --duration 65535|code ffffff070001000000000000|0
activation 7 255 0000|code ffffff0700ff000000000000|0
activation 3 1 9a6|bad checksum|2
activation 3 1 09a66|bad checksum|2
activation 3 1 9a6g --address 1.2.3|bad checksum|2
activation 3 1 9a66 --address 1.2.3|bad address|2
";

/// Calls over a sign's description: the words, the standard input, what is printed, and the status.
pub static DESCRIBED: [(&str, &str, &str, u8); 7] = [
    // a text that fits
    ("check --sign A", SMALL_SIGN, "ok pages 1\n", 0),
    // a text that is too wide
    ("check --sign AA", SMALL_SIGN, "fault 5 at 1\n", 1),
    // its page
    ("pages --sign A", SMALL_SIGN, PAGE, 0),
    // a colon among the octets
    (
        "answer --sign 302b02010004067075626c6963a01e0201010201000201003013301106:0d2b0601040189360402030202000500",
        SMALL_SIGN,
        "not hex\n",
        2,
    ),
    // a description that ends after a line
    ("check --sign A", "size 5 7\n", "line 2\n", 1),
    // a matrix without rows
    ("pages --sign A", "size 5 0\n", "line 2\n", 1),
    // no description
    ("answer --sign 30", "", "line 1\n", 1),
];

/// Replays of a script.
pub static REPLAYS: [(&str, &str, &str, u8); 4] = [
    // a second passes
    (
        "replay",
        "\
bench
sign-tick
",
        "\
events 1
sent 0 0
shown 7 1 0000 mode 10 priority 1 remaining 65535 text -
",
        0,
    ),
    // a blank message is activated, and its code accepted
    (
        "replay",
        "\
bench
blank 1 65535 255 0.0.0.0
to-sign 0
to-centre 0
",
        "\
events 3
sent 1 1
shown 7 1 0000 mode 8 priority 1 remaining 65535 text -
accepted 2 ffffff070001000000000000
ledger 1 ffffff070001000000000000 accepted
",
        0,
    ),
    // no event
    (
        "replay",
        "\
bench
sign-tock
",
        "line 2\n",
        1,
    ),
    // no line
    ("replay", "", "line 1\n", 1),
];

/// Conversations with a sign and with a central system.
pub static CONVERSATIONS: [(&str, &str, &str, u8); 5] = [
    // a datagram among lines to a sign
    (
        "sign",
        "\
tick
state\r\n
ticks
datagram 301802010004067075626c6963a00b0201010201000201003000
datagram -",
        "\
ok
shown 7 1 0000 mode 10 priority 1 remaining 65535 text -
ok
bad line no call begins with this word
bad line word 2: the line ends where a number from 0 to 4294967295 is wanted
reply 301802010004067075626c6963a20b0201010201000201003000
dropped
",
        0,
    ),
    // no line
    ("sign", "", "", 0),
    // a description that ends after a line
    ("sign --sign", "size 5 7\n", "line 2\n", 1),
    // a publication that a restart ends
    (
        "centre",
        "\
status
publish 3 1 41 - 0 0 100 65535 255 127.0.0.1
blank 1 65535 255 0.0.0.0
restart
status",
        "\
idle
last none
ok
send 302e020100040561646d696ea3220201010201000201003017301506102b060104018936040203050801090301020106
refused a job is not done yet
ok
idle
last failed at step 1: the central system was restarted
ok
",
        0,
    ),
    // no description
    ("centre --sign", "", "line 1\n", 1),
];

/// Datagrams that are decoded: the words, what is printed, the status, and what the standard error has.
pub static DECODED: [(&str, &str, u8, &str); 12] = [
    // a Get of changeable 1 by `public`, with blanks and colons
    (
        "decode --spaced '30:2e:02:01:00 04067075626c6963a0210201010201000201003016301406102b0601040189360402030508010903010500'",
        r#"kind Get
community 7075626c6963 "public"
request-id 1
error-status 0
error-index 0
binding 1.3.6.1.4.1.1206.4.2.3.5.8.1.9.3.1 (dmsMessageStatus.3.1): NULL
"#,
        0,
        "",
    ),
    // a Response with a value of each type
    (
        "decode 3081900201000400a28188020101020102020103307d3012060d2b060104018936040203040500020101300806022907040241313008060229070402ff0030060602290704003006060229070500301306022907060d2b060104018936040203040500300a0602290740040a000001300706022907410105300706022907420106300706022907430107300706022907440100",
        r#"kind Response
community -
request-id 1
error-status 2
error-index 3
binding 1.3.6.1.4.1.1206.4.2.3.4.5.0 (defaultFont.0): INTEGER 1
binding 1.1.7: OCTET STRING 4131 "A1"
binding 1.1.7: OCTET STRING ff00
binding 1.1.7: OCTET STRING -
binding 1.1.7: NULL
binding 1.1.7: OBJECT IDENTIFIER 1.3.6.1.4.1.1206.4.2.3.4.5.0 (defaultFont.0)
binding 1.1.7: IpAddress 10.0.0.1
binding 1.1.7: Counter 5
binding 1.1.7: Gauge 6
binding 1.1.7: TimeTicks 7
binding 1.1.7: Opaque 00
"#,
        0,
        "",
    ),
    // a datagram that ends too early
    (
        "decode 30",
        "fault truncated at octet 1\n",
        1,
        "truncated at octet 1\n",
    ),
    // a blank within an octet
    (
        "decode --spaced '3 0'",
        "not hex\n",
        2,
        "octet 2 of the word, 20 in hexadecimal, is no digit of a pair\n",
    ),
    // a blank where none may stand
    (
        "decode '30 00'",
        "not hex\n",
        2,
        "octet 3 of the word, 20 in hexadecimal, is no digit of a pair\n",
    ),
    // a colon where none may stand
    (
        "decode 30:00",
        "not hex\n",
        2,
        "octet 3 of the word, 3a in hexadecimal, is no digit of a pair\n",
    ),
    // an odd number of digits
    (
        "decode 3",
        "not hex\n",
        2,
        "the word has an odd number of hexadecimal digits\n",
    ),
    // a datagram that ends too early, as JSON
    (
        "decode --json 300a",
        r#"{"fault":"truncated","octet":2}
"#,
        1,
        "truncated at octet 2\n",
    ),
    // an odd number of digits, as JSON
    (
        "decode --json 3",
        r#"{"refused":"not hex"}
"#,
        2,
        "the word has an odd number of hexadecimal digits\n",
    ),
    // a Get of changeable 1 by `public`, as JSON
    (
        "decode --json 302e02010004067075626c6963a0210201010201000201003016301406102b0601040189360402030508010903010500",
        r#"{"kind":"Get","community":{"octets":"7075626c6963","text":"public"},"request-id":1,"error-status":0,"error-index":0,"binding":[{"name":"1.3.6.1.4.1.1206.4.2.3.5.8.1.9.3.1","object":"dmsMessageStatus.3.1","type":"NULL","value":null}]}
"#,
        0,
        "",
    ),
    // a community with a quotation mark, as JSON
    (
        "decode --json 301802010004067075626c6922a20b0201010201000201003000",
        r#"{"kind":"Response","community":{"octets":"7075626c6922","text":"publi\""},"request-id":1,"error-status":0,"error-index":0,"binding":[]}
"#,
        0,
        "",
    ),
    // a Response with a value of each type, as JSON
    (
        "decode --json 3081900201000400a28188020101020102020103307d3012060d2b060104018936040203040500020101300806022907040241313008060229070402ff0030060602290704003006060229070500301306022907060d2b060104018936040203040500300a0602290740040a000001300706022907410105300706022907420106300706022907430107300706022907440100",
        r#"{"kind":"Response","community":{"octets":""},"request-id":1,"error-status":2,"error-index":3,"binding":[{"name":"1.3.6.1.4.1.1206.4.2.3.4.5.0","object":"defaultFont.0","type":"INTEGER","value":1},{"name":"1.1.7","type":"OCTET STRING","value":{"octets":"4131","text":"A1"}},{"name":"1.1.7","type":"OCTET STRING","value":{"octets":"ff00"}},{"name":"1.1.7","type":"OCTET STRING","value":{"octets":""}},{"name":"1.1.7","type":"NULL","value":null},{"name":"1.1.7","type":"OBJECT IDENTIFIER","value":{"name":"1.3.6.1.4.1.1206.4.2.3.4.5.0","object":"defaultFont.0"}},{"name":"1.1.7","type":"IpAddress","value":"10.0.0.1"},{"name":"1.1.7","type":"Counter","value":5},{"name":"1.1.7","type":"Gauge","value":6},{"name":"1.1.7","type":"TimeTicks","value":7},{"name":"1.1.7","type":"Opaque","value":{"octets":"00"}}]}
"#,
        0,
        "",
    ),
];

/// Items of a text.
pub static ITEMS: [(&str, &str, u8, &str); 5] = [
    // an item of each kind, and a tag that is not supported
    (
        "items [cb][cf1]A[[[fo][fo2,1a2b][flo5]B[/fl][jl3][jp][nl2][np][pt30o][sc1]",
        "\
0 background default
4 foreground 1
9 character 65
10 character 91
12 font default
16 font 2 version 6699
26 flash dark default 5
32 character 66
33 end of flash
38 line 3
43 page default
47 new line 2
52 new page
56 page time 30 default
fault 3 at 63
",
        1,
        "unsupported tag at octet 63\n",
    ),
    // no text
    ("items ''", "", 0, ""),
    // no text, as JSON
    (
        "items --json ''",
        r#"{"items":[]}
"#,
        0,
        "",
    ),
    // values that a tag leaves out, as JSON
    (
        "items --json [fo2,1a2b]A[pt20o][flo5]",
        r#"{"items":[{"at":0,"item":"font","values":[2],"version":6699},{"at":10,"item":"character","values":[65]},{"at":11,"item":"page time","values":[20,null]},{"at":18,"item":"flash dark","values":[null,5]}]}
"#,
        0,
        "",
    ),
    // a bracket that stands alone, as JSON
    (
        "items --json [np]]",
        r#"{"items":[{"at":0,"item":"new page","values":[]}],"fault":3,"at":4}
"#,
        1,
        "unsupported tag at octet 4\n",
    ),
];

/// Calls that are refused: the line, what is printed, the status, and what is said on the standard error.
pub const REFUSED: &str = "\
pages --page 2 A|no such page|1|the text has no page 2: pages are counted from 1 to 1
pages --page 2 --svg A|no such page|1|the text has no page 2: pages are counted from 1 to 1
check A[sc1]|fault 3 at 1|1|unsupported tag at octet 1
pages --svg C|fault 7 at 0|1|character not defined at octet 0: character 67 is not in font 1
answer 3000|dropped|1|truncated at octet 2
answer 301802010004067075626c6963a20b0201010201000201003000|dropped|1|no request, or not of a community that may ask this
check AAAAA|fault 5 at 4|1|text too big at octet 4: wider than the matrix by 6 columns
pages A[nl]A[nl]A|fault 5 at 5|1|text too big at octet 5: higher than the matrix by 9 rows
check [fo2]B|fault 7 at 5|1|character not defined at octet 5: character 66 is not in font 2
check [fo2]A[fo]C|fault 7 at 10|1|character not defined at octet 10: character 67 is not in font 1
check A[fo7]A|fault 6 at 1|1|font not defined at octet 1: the sign has no font 7
pages A[np]AAAAA[nl]A|fault 5 at 9|1|text too big at octet 9: wider than the matrix by 6 columns
decode --spaced ' 30'|not hex|2|octet 1 of the word, 20 in hexadecimal, is no digit of a pair
decode --spaced '30 '|not hex|2|octet 3 of the word, 20 in hexadecimal, is no digit of a pair
decode --spaced 30:|not hex|2|octet 3 of the word, 3a in hexadecimal, is no digit of a pair
decode --spaced 30::0|not hex|2|the word has an odd number of hexadecimal digits
answer 3g|not hex|2|octet 2 of the word, 67 in hexadecimal, is no digit of a pair
code 3 1 A --address 1.2.3|bad address|2|an address is four numbers from 0 to 255 with dots between them, as 192.0.2.1, and not `1.2.3`
activation 3 1 9a6|bad checksum|2|a checksum is four hexadecimal digits, and not `9a6`
";

/// Inputs with what nobody sees in the line that is refused: the call, its input, what it prints, and what it says.
pub static UNSEEN: [(&str, &str, &str, &str); 4] = [
    (
        "check --sign A",
        "\u{FEFF}size 5 7\n",
        "line 1\n",
        "line 1: word 1: the word size is wanted; it begins with a byte order mark, the octets EF BB BF\n",
    ),
    (
        "check --sign A",
        "# a comment\nsize 5\t7\n",
        "line 2\n",
        "line 2: word 2: a number from 0 to 65535 is wanted; its octet 7 is a tab, and words have a space between them\n",
    ),
    (
        "sign --sign",
        "size 5 7\n\tcommunities public admin\nend\n",
        "line 2\n",
        "line 2: word 1: the word communities is wanted; its octet 1 is a tab, and words have a space between them\n",
    ),
    (
        "replay",
        "bench\nsign-tick\npower-back\t5\n",
        "line 3\n",
        "line 3: no event begins with this word; its octet 11 is a tab, and words have a space between them\n",
    ),
];

/// What is said of a call on the standard error, beside what it prints.
pub static SAID: [(&str, &str, u8, &str); 4] = [
    // the version
    ("--version", "signtool 1.0.0\n", 0, ""),
    // two pages, as JSON
    (
        "check --json A[np]A",
        r#"{"pages":2}
"#,
        0,
        "",
    ),
    // a tag that is not supported, as JSON
    (
        "check --json [sc1]",
        r#"{"fault":3,"at":0}
"#,
        1,
        "unsupported tag at octet 0\n",
    ),
    // no description, as JSON
    (
        "check --json --sign A",
        r#"{"refused":"line 1"}
"#,
        1,
        "\
line 1: the text ends before its line `end`
the standard input is empty: < FILE gives it one
",
    ),
];

/// Words that are no call.
pub static NO_CALLS: [&str; 20] = [
    // `replay` takes no word
    "replay A",
    // no call is named
    "",
    // no datagram
    "answer",
    // two datagrams
    "answer 30 31",
    // no call of this name
    "reply 30",
    // the help, which is printed as what is said of no call
    "--help",
    // no text
    "code 3 1",
    // no memory has the type 1
    "code 1 1 A",
    // what is shown has no code of a text
    "code 5 1 A",
    // rows begin at 1
    "code 3 0 A",
    // rows end at 65535
    "code 3 65536 A",
    // minutes end at 65535
    "code 3 1 A --duration 65536",
    // priorities end at 255
    "code 3 1 A --priority 256",
    // the help, by a word
    "help",
    // a conversation reads its lines from the standard input
    "sign tick",
    // no checksum
    "activation 3 1",
    // no memory has the type 1
    "activation 1 1 9a66",
    // a sign has no schedules
    "activation 6 1 9a66",
    // no memory has the type 8
    "activation 8 1 9a66",
    // blank messages begin at 1
    "activation 7 0 0000",
];
