//! Lines to the bench sign with its answers, and pages as text.

use crate::bad_lines::{NO_CALL, SECOND_SPACE, SECOND_WORD, THIRD_WORD};

/// Lines to the bench sign, each after `> `, and under each its answer. A line that begins with `#` says in words what
/// follows.
pub const TALK: &str = "\
> show
page 1 on 30 off 0 back 0
.......................
.......................
.......................
.......................
.......................
.......................
.......................
.......................
.......................
.......................
.......................
.......................
.......................
.......................
ok
> state
shown 7 1 0000 mode 10 priority 1 remaining 65535 text -
ok
# `public` asks for vmsSignWidthPixels.0: 23
> datagram 302b02010004067075626c6963a01e02010102010002010030133011060d2b0601040189360402030204000500
reply 302c02010004067075626c6963a21f02010102010002010030143012060d2b060104018936040203020400020117
# `nobody` asks for it
> datagram 302b02010004066e6f626f6479a01e02010102010002010030133011060d2b0601040189360402030204000500
dropped
> datagram -
dropped
> datagram 00
dropped
# `admin` sets dmsActivateMessage.0 to row 2.1 with another checksum: genErr at 1
> datagram 3036020100040561646d696ea32a02010a020100020100301f301d060d2b060104018936040203060300040cffff64020001750300000000
reply 3036020100040561646d696ea22a02010a020105020101301f301d060d2b060104018936040203060300040cffff64020001750300000000
# `admin` sets dmsActivateMessage.0 to row 2.1 with its checksum
> datagram 3036020100040561646d696ea32a020109020100020100301f301d060d2b060104018936040203060300040cffff64020001750200000000
accepted ffff64020001750200000000 3036020100040561646d696ea22a020109020100020100301f301d060d2b060104018936040203060300040cffff64020001750200000000
> show
page 1 on 30 off 0 back 0
.........9999..........
.........9...9.........
.........9...9.........
.........9999..........
.........9...9.........
.........9...9.........
.........9999..........
.......................
.......................
.......................
.......................
.......................
.......................
.......................
ok
> state
shown 2 1 7502 mode 8 priority 100 remaining 65535 text 42
ok
> tick
ok
> power-lost
ok
# `public` asks for vmsSignWidthPixels.0 while the power is off
> datagram 302b02010004067075626c6963a01e02010102010002010030133011060d2b0601040189360402030204000500
dropped
> state
shown 7 1 0000 mode 13 priority 1 remaining 65535 text -
ok
> power-lost
ok
> power-back 7
ok
> state
shown 7 1 0000 mode 10 priority 1 remaining 65535 text -
ok
> power-back 4294967295
ok
> show
page 1 on 30 off 0 back 0
.......................
.......................
.......................
.......................
.......................
.......................
.......................
.......................
.......................
.......................
.......................
.......................
.......................
.......................
ok
";

/// Lines of the state of the bench sign without power, which shows permanent 1: the others are those of a new sign.
pub const LINES_WITHOUT_POWER: [&str; 6] = [
    "shown-mode 13",
    "kept 42 - 0 0 100",
    "kept-source 0200017502",
    "kept-mode 8",
    // the code of permanent 1
    "accepted-code ffff64020001750200000000",
    "powered 0",
];

/// Seconds by one line: a message for two minutes, and a silence of one minute, which `heard` begins again.
pub const SECONDS: &str = "\
# `admin` sets dmsActivateMessage.0 to row 2.1, for two minutes
> datagram 3036020100040561646d696ea32a020109020100020100301f301d060d2b060104018936040203060300040c000264020001750200000000
accepted 000264020001750200000000 3036020100040561646d696ea22a020109020100020100301f301d060d2b060104018936040203060300040c000264020001750200000000
> state
shown 2 1 7502 mode 8 priority 100 remaining 2 text 42
ok
> ticks 0
ok
> state
shown 2 1 7502 mode 8 priority 100 remaining 2 text 42
ok
> ticks 60
ok
> state
shown 2 1 7502 mode 8 priority 100 remaining 1 text 42
ok
> ticks 59
ok
> state
shown 2 1 7502 mode 8 priority 100 remaining 1 text 42
ok
> ticks 0000000001
ok
> state
shown 7 1 0000 mode 14 priority 1 remaining 65535 text -
ok
# `admin` sets dmsTimeCommLoss.0 to a minute
> datagram 302b020100040561646d696ea31f02010a02010002010030143012060d2b060104018936040203060d00020101
reply 302b020100040561646d696ea21f02010a02010002010030143012060d2b060104018936040203060d00020101
> ticks 59
ok
> heard
ok
> ticks 59
ok
> state
shown 7 1 0000 mode 14 priority 1 remaining 65535 text -
ok
> ticks 1
ok
> state
shown 7 1 0000 mode 12 priority 1 remaining 65535 text -
ok
> heard
ok
> state
shown 7 1 0000 mode 12 priority 1 remaining 65535 text -
ok
# the longest silence there is: 65535 minutes
> datagram 302d020100040561646d696ea32102010b02010002010030163014060d2b060104018936040203060d00020300ffff
reply 302d020100040561646d696ea22102010b02010002010030163014060d2b060104018936040203060d00020300ffff
# `admin` sets dmsActivateMessage.0 to row 2.1, for two minutes
> datagram 3036020100040561646d696ea32a02010c020100020100301f301d060d2b060104018936040203060300040c000264020001750200000000
accepted 000264020001750200000000 3036020100040561646d696ea22a02010c020100020100301f301d060d2b060104018936040203060300040c000264020001750200000000
> ticks 119
ok
> state
shown 2 1 7502 mode 8 priority 100 remaining 1 text 42
ok
> ticks 3931980
ok
> state
shown 7 1 0000 mode 14 priority 1 remaining 65535 text -
ok
> ticks 1
ok
> state
shown 7 1 0000 mode 12 priority 1 remaining 65535 text -
ok
# more seconds than that change nothing: they are not counted one by one
> ticks 4294967295
ok
> state
shown 7 1 0000 mode 12 priority 1 remaining 65535 text -
ok
# nor do they while the power is off
> power-lost
ok
> ticks 4294967295
ok
> state
shown 7 1 0000 mode 13 priority 1 remaining 65535 text -
ok
> power-back 1
ok
# the same message once more, and all seconds at once: its end, and then that of the silence
> datagram 3036020100040561646d696ea32a02010d020100020100301f301d060d2b060104018936040203060300040c000264020001750200000000
accepted 000264020001750200000000 3036020100040561646d696ea22a02010d020100020100301f301d060d2b060104018936040203060300040c000264020001750200000000
> ticks 4294967295
ok
> state
shown 7 1 0000 mode 12 priority 1 remaining 65535 text -
ok
";

/// The pages of `[cb3][pt5o2]1[np][fo2][cf1]A`.
pub const TWO_PAGES: &str = "page 1 on 5 off 2 back 3
...........9...........
..........99...........
...........9...........
...........9...........
...........9...........
...........9...........
...........9...........
.......................
.......................
.......................
.......................
.......................
.......................
.......................
page 2 on 5 off 2 back 3
...........1...........
..........1.1..........
..........111..........
..........1.1..........
..........1.1..........
.......................
.......................
.......................
.......................
.......................
.......................
.......................
.......................
.......................
";

/// Permanent 1 is activated.
pub const ACTIVATE: &str =
    "datagram 3036020100040561646d696ea32a020109020100020100301f301d060d2b060104018936040203060300040cffff64020001750200000000";

/// What is answered then.
pub const ACCEPTED: &str =
    "accepted ffff64020001750200000000 3036020100040561646d696ea22a020109020100020100301f301d060d2b060104018936040203060300040cffff64020001750200000000
";

/// The state of the bench sign while the power is off.
pub const STATE_WITHOUT_POWER: &str = "shown 7 1 0000 mode 13 priority 1 remaining 65535 text -
ok
";

/// Lines that spell no call of a sign, each with its answer.
pub const BAD_LINES: [(&str, &str); 17] = [
    // no number of seconds
    (
        "ticks",
        "bad line word 2: the line ends where a number from 0 to 4294967295 is wanted\n",
    ),
    // a number below 0
    (
        "ticks -1",
        "bad line word 2: a number from 0 to 4294967295 is wanted\n",
    ),
    // a number above the range
    (
        "ticks 4294967296",
        "bad line word 2: a number from 0 to 4294967295 is wanted\n",
    ),
    // two numbers
    ("ticks 1 1", THIRD_WORD),
    // a word after `heard`
    ("heard 1", SECOND_WORD),
    // a word after `power-lost`
    ("power-lost 1", SECOND_WORD),
    // no number of seconds
    (
        "power-back",
        "bad line word 2: the line ends where a number from 0 to 4294967295 is wanted\n",
    ),
    // a blank at the end
    ("power-back ", SECOND_SPACE),
    // a number below 0
    (
        "power-back -1",
        "bad line word 2: a number from 0 to 4294967295 is wanted\n",
    ),
    // a sign before the number
    (
        "power-back +1",
        "bad line word 2: a number from 0 to 4294967295 is wanted\n",
    ),
    // a number above the range
    (
        "power-back 4294967296",
        "bad line word 2: a number from 0 to 4294967295 is wanted\n",
    ),
    // more than ten digits
    (
        "power-back 00000000007",
        "bad line word 2: a number from 0 to 4294967295 is wanted\n",
    ),
    // two numbers
    ("power-back 7 7", THIRD_WORD),
    // an underscore
    ("power_back 7", NO_CALL),
    // a word after `show`
    ("show 1", SECOND_WORD),
    // a dash
    ("show-", NO_CALL),
    // a word after `state`
    ("state 1", SECOND_WORD),
];
