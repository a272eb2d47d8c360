//! Talks with a central system: each line that is handed to it, after `> `, and the lines that answer it. A line that
//! begins with `#` says in words what follows.

use crate::bad_lines::{NO_CALL, SECOND_WORD, THIRD_SPACE, THIRD_WORD};

/// Commands that are refused.
pub const REFUSED: &str = "\
> status
idle
last none
ok
> publish 5 1 41 - 0 0 200 1 1 0.0.0.0
refused a value is out of its range: MEMORY
> publish 3 0 41 - 0 0 200 1 1 0.0.0.0
refused a value is out of its range: NUMBER
> publish 4 1 41 - 2 2 0 1 1 0.0.0.0
refused a value is out of its range: BEACON
> publish 4 1 41 - 1 2 0 1 1 0.0.0.0
refused a value is out of its range: PIXEL
> publish 4 1 41 - 1 1 0 1 1 0.0.0.0
refused a value is out of its range: RUN
> blank 256 1 1 0.0.0.0
refused a value is out of its range: NUMBER
> status
idle
last none
ok
# blank 1 is activated: its code is sent
> blank 1 65535 255 0.0.0.0
send 3036020100040561646d696ea32a020101020100020100301f301d060d2b060104018936040203060300040cffffff070001000000000000
> blank 2 65535 255 0.0.0.0
refused a job is not done yet
> blank 0 65535 255 0.0.0.0
refused a job is not done yet
# the code waits
> status
busy
last none
ledger 1 ffffff070001000000000000 waiting
ok
> status last
busy
last none
ok
";

/// Commands where no number is left.
pub const USED_UP: &str = "\
# the code of blank 1
> activate ffffff070001000000000000
refused no request number is left
> blank 0 1 1 0.0.0.0
refused no request number is left
> status
idle
last none
ok
";

/// An activation that no reply comes to: it is sent three times.
pub const UNANSWERED: &str = "\
> tick
ok
> datagram -
ok
# the code of blank 1 is sent
> activate FFFFFF070001000000000000
send 3036020100040561646d696ea32a020101020100020100301f301d060d2b060104018936040203060300040cffffff070001000000000000
> tick
ok
> datagram 6e6F7468696e67
ok
> tick
ok
# the third second: it is sent again
> tick
send 3036020100040561646d696ea32a020101020100020100301f301d060d2b060104018936040203060300040cffffff070001000000000000
> tick
ok
> tick
ok
# the sixth second: it is sent for the third time
> tick
send 3036020100040561646d696ea32a020101020100020100301f301d060d2b060104018936040203060300040cffffff070001000000000000
> tick
ok
> tick
ok
# the code still waits
> status
busy
last none
ledger 1 ffffff070001000000000000 waiting
ok
# all that the central system keeps
> save
state 1 centre
next 2
last none
awaits
sends 3
ticks 2
step 7
polls 0
activate ffffff070001000000000000
ledger 1 ffffff070001000000000000 waiting
end
ok
> tick
ok
# the ninth second is over: no reply came
> status
idle
last failed at step 7: no reply
ledger 1 ffffff070001000000000000 noreply
ok
# the sign's acceptance, which comes too late
> datagram 3036020100040561646d696ea22a020101020100020100301f301d060d2b060104018936040203060300040cffffff070001000000000000
ok
> tick
ok
";

/// A blank message that is accepted, one that a restart makes unknown, and one that is refused for a cause.
pub const OUTCOMES: &str = "\
> restart
ok
# blank 1 is activated: its code is sent
> blank 1 65535 255 0.0.0.0
send 3036020100040561646d696ea32a020101020100020100301f301d060d2b060104018936040203060300040cffffff070001000000000000
# the sign accepts it
> datagram 3036020100040561646d696ea22a020101020100020100301f301d060d2b060104018936040203060300040cffffff070001000000000000
ok
> restart
ok
# the restart changes nothing of what has ended
> status
idle
last accepted
ledger 1 ffffff070001000000000000 accepted
ok
# blank 1 is activated again
> blank 1 65535 255 0.0.0.0
send 3036020100040561646d696ea32a020102020100020100301f301d060d2b060104018936040203060300040cffffff070001000000000000
> restart
ok
# the restart leaves open whether it was accepted
> status
idle
last failed at step 7: the central system was restarted
ledger 1 ffffff070001000000000000 accepted
ledger 2 ffffff070001000000000000 unknown
ok
# blank 1 is activated for the third time
> blank 1 65535 255 0.0.0.0
send 3036020100040561646d696ea32a020103020100020100301f301d060d2b060104018936040203060300040cffffff070001000000000000
# the sign refuses it with genErr: the cause is asked for
> datagram 3036020100040561646d696ea22a020103020105020101301f301d060d2b060104018936040203060300040cffffff070001000000000000
send 302a020100040561646d696ea01e02010402010002010030133011060d2b0601040189360402030611000500
# the cause is 3
> datagram 302b020100040561646d696ea21f02010402010002010030143012060d2b060104018936040203061100020103
ok
# what became of the three
> status
idle
last failed at step 7: the sign refused the activation for cause 3
ledger 1 ffffff070001000000000000 accepted
ledger 2 ffffff070001000000000000 unknown
ledger 3 ffffff070001000000000000 refused 5
ok
";

/// A publication, with the replies of the model's bench sign (model/): how the central system stands before it, in
/// it and after it.
pub const PUBLISHED: &str = "\
> status
idle
last none
ok
# `A` is published in row 3.1: the row is to be modified
> publish 3 1 41 - 0 0 200 65535 255 192.0.2.1
send 302e020100040561646d696ea3220201010201000201003017301506102b060104018936040203050801090301020106
# it is being modified, which is asked for
> datagram 302e020100040561646d696ea2220201010201000201003017301506102b060104018936040203050801090301020106
send 302d020100040561646d696ea0210201020201000201003016301406102b0601040189360402030508010903010500
# its status is 2: text, owner, beacon, pixel service and priority are sent
> datagram 302e020100040561646d696ea2220201020201000201003017301506102b060104018936040203050801090301020102
send 30818a020100040561646d696ea37e0201030201000201003073301506102b060104018936040203050801030301040141301406102b0601040189360402030508010403010400301506102b060104018936040203050801060301020100301506102b060104018936040203050801070301020100301606102b060104018936040203050801080301020200c8
# they are set: the row is to be validated
> datagram 30818a020100040561646d696ea27e0201030201000201003073301506102b060104018936040203050801030301040141301406102b0601040189360402030508010403010400301506102b060104018936040203050801060301020100301506102b060104018936040203050801070301020100301606102b060104018936040203050801080301020200c8
send 302e020100040561646d696ea3220201040201000201003017301506102b060104018936040203050801090301020107
> status
busy
last none
ok
# it is being validated, and its status asked for
> datagram 302e020100040561646d696ea2220201040201000201003017301506102b060104018936040203050801090301020107
send 302d020100040561646d696ea0210201050201000201003016301406102b0601040189360402030508010903010500
# its status is 4: its checksum is asked for
> datagram 302e020100040561646d696ea2220201050201000201003017301506102b060104018936040203050801090301020104
send 302d020100040561646d696ea0210201060201000201003016301406102b0601040189360402030508010503010500
# the checksum is 9a66, as it should be
> datagram 3030020100040561646d696ea2240201060201000201003019301706102b0601040189360402030508010503010203009a66
ok
# the next second: the code is sent
> tick
send 3036020100040561646d696ea32a020107020100020100301f301d060d2b060104018936040203060300040cffffff0300019a66c0000201
# the code waits
> status
busy
last none
ledger 7 ffffff0300019a66c0000201 waiting
ok
# the sign accepts it
> datagram 3036020100040561646d696ea22a020107020100020100301f301d060d2b060104018936040203060300040cffffff0300019a66c0000201
ok
# the code is accepted
> status
idle
last accepted
ledger 7 ffffff0300019a66c0000201 accepted
ok
> status last
idle
last accepted
ok
";

/// Lines that spell no call of a central system, each with its answer.
pub const BAD_LINES: [(&str, &str); 26] = [
    (
        "publish",
        "bad line word 2: the line ends where a number from 0 to 255 is wanted\n",
    ),
    ("Publish 3 1 41 - 0 0 200 65535 255 192.0.2.1", NO_CALL),
    (
        "publish 256 1 41 - 0 0 200 65535 255 192.0.2.1",
        "bad line word 2: a number from 0 to 255 is wanted\n",
    ),
    (
        "publish 3 1 41 - 0 0 200 65535 255 192.0.2.1 0",
        "bad line word 12: no more words are wanted\n",
    ),
    (
        "publish 3 1 4g - 0 0 200 65535 255 192.0.2.1",
        "bad line word 4: a text in hexadecimal is wanted\n",
    ),
    (
        "blank",
        "bad line word 2: the line ends where a number from 0 to 65535 is wanted\n",
    ),
    (
        "blank 65536 65535 255 192.0.2.1",
        "bad line word 2: a number from 0 to 65535 is wanted\n",
    ),
    (
        "blank 1 65535 255 192.0.2",
        "bad line word 5: an address, as 192.0.2.1, is wanted\n",
    ),
    (
        "activate",
        "bad line word 2: the line ends where a code of 24 hexadecimal digits is wanted\n",
    ),
    // a code with an octet too few
    (
        "activate ffffff0300019a66c00002",
        "bad line word 2: a code of 24 hexadecimal digits is wanted\n",
    ),
    (
        "activate -",
        "bad line word 2: a code of 24 hexadecimal digits is wanted\n",
    ),
    ("restart 0", SECOND_WORD),
    ("restarts", NO_CALL),
    (
        "status 1",
        "bad line word 2: the word last, or the end of the line, is wanted\n",
    ),
    ("status last 1", THIRD_WORD),
    ("status last last", THIRD_WORD),
    (
        "status Last",
        "bad line word 2: the word last, or the end of the line, is wanted\n",
    ),
    (
        "status first",
        "bad line word 2: the word last, or the end of the line, is wanted\n",
    ),
    ("last", NO_CALL),
    ("state", NO_CALL),
    ("show", NO_CALL),
    ("power-lost", NO_CALL),
    ("power-back 0", NO_CALL),
    ("status\n", NO_CALL),
    (
        "status ",
        "bad line word 2: the word last, or the end of the line, is wanted\n",
    ),
    ("status last ", THIRD_SPACE),
];
