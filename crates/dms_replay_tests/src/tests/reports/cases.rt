//! Scripts, each with the whole report that is wanted of it after a line `report`. `put_line` says what stands here in
//! the place of lines of a script.

/// Lines by the names that stand for them.
pub static NAMED: [(&str, &str); 11] = [
    // a datagram that is dropped
    ("nothing", "forge-sign 6e6f7468696e67"),
    // a Get of a status, which is answered
    (
        "get",
        "forge-sign 302e02010004067075626c6963a0210201010201000201003016301406102b0601040189360402030508010903010500",
    ),
    // the default font becomes 2
    (
        "font-two",
        "forge-sign 302b020100040561646d696ea31f02010902010002010030143012060d2b060104018936040203040500020102",
    ),
    // the default font becomes 2, and permanent 1 is activated, in one SET
    (
        "font-two-and-code",
        "forge-sign 304a020100040561646d696ea33e02010902010002010030333012060d2b060104018936040203040500020102301d060d2b060104018936040203060300040cffffff020001750200000000",
    ),
    // a minute of silence is a loss of communications
    (
        "silence-of-a-minute",
        "forge-sign 302b020100040561646d696ea31f02010902010002010030143012060d2b060104018936040203060d00020101",
    ),
    // a loss of communications keeps what is shown
    (
        "silence-keeps",
        "forge-sign 302f020100040561646d696ea32302010902010002010030183016060d2b060104018936040203060c0004050500010000",
    ),
    // what was shown comes back after a long loss of power
    (
        "long-loss-keeps",
        "forge-sign 302f020100040561646d696ea32302010902010002010030183016060d2b06010401893604020306090004050500010000",
    ),
    // volatile 1 is shown after a short loss of power
    (
        "short-loss-shows-volatile",
        "forge-sign 302f020100040561646d696ea32302010902010002010030183016060d2b06010401893604020306080004050400019a66",
    ),
    // a loss of power of a second is short
    (
        "short-is-a-second",
        "forge-sign 302b020100040561646d696ea31f02010902010002010030143012060d2b060104018936040203060a00020101",
    ),
    // a loss of power of ten seconds is short
    (
        "short-is-ten-seconds",
        "forge-sign 302b020100040561646d696ea31f02010902010002010030143012060d2b060104018936040203060a0002010a",
    ),
    // changeable 1 is asked to be modified, and its text becomes `B`
    (
        "other-text",
        "forge-sign 302e020100040561646d696ea3220201010201000201003017301506102b060104018936040203050801090301020106
forge-sign 302e020100040561646d696ea3220201010201000201003017301506102b060104018936040203050801030301040142",
    ),
];

/// Messages that are published, activated and refused.
pub static PUBLICATIONS: [&str; 9] = [
    "\
# `A` is published
bench
letter 3 65535
report
events 17
sent 7 7
shown 3 1 9a66 mode 8 priority 200 remaining 65535 text 41
accepted 16 ffffff0300019a66c0000201
ledger 7 ffffff0300019a66c0000201 accepted
",
    "\
# in the other order of the checksum's octets, from another first number
sign 100 swapped
letter 3 65535
report
events 17
sent 7 7
shown 3 1 9a66 mode 8 priority 200 remaining 65535 text 41
accepted 16 ffffff030001669ac0000201
ledger 106 ffffff030001669ac0000201 accepted
",
    "\
# the text of the message that was there before reaches the sign again, after the new one
bench
publish 3 1 42 - 0 0 200 65535 255 192.0.2.1
both 0 3
sign-tick
both 4 5
centre-tick
both 6 6
publish 3 1 41 - 0 0 200 65535 255 192.0.2.1
both 7 9
to-sign 2
to-sign 10
to-centre 11
sign-tick
to-sign 11
to-centre 12
to-sign 12
to-centre 13
activate ffffff0300019a66c0000201
to-sign 13
to-centre 14
report
events 35
sent 15 15
shown 3 1 7502 mode 8 priority 200 remaining 65535 text 42
accepted 16 ffffff0300017502c0000201
ledger 7 ffffff0300017502c0000201 accepted
ledger 14 ffffff0300019a66c0000201 refused 5
",
    "\
# an activation reaches the sign twice, and its second reply reaches the centre first
bench
publish 3 1 41 - 0 0 200 65535 0 0.0.0.0
both 0 3
sign-tick
both 4 5
centre-tick
both 6 7
activate 00050a0300019a66c0000201
to-sign 8
to-sign 8
to-centre 9
to-centre 8
report
events 24
sent 10 10
shown 3 1 9a66 mode 8 priority 200 remaining 5 text 41
accepted 21 00050a0300019a66c0000201
ledger 7 ffff000300019a6600000000 refused 5
ledger 9 00050a0300019a66c0000201 refused 5
",
    "\
# a forged reply: the centre believes what never was
bench
activate ffffff0300019a6600000000
forge-centre 3017020100040561646d696ea20b0201010201000201003000
report
events 2
sent 1 0
shown 7 1 0000 mode 10 priority 1 remaining 65535 text -
ledger 1 ffffff0300019a6600000000 accepted
",
    "\
# while `A` is shown: another type of memory, another row, one without a message, another checksum, a lower
# priority, the same priority, a blank message
bench
letter 3 65535
activate ffffff060001000000000000
both 7 8
activate ffffff0300039a6600000000
both 9 10
activate ffffff0300020f4700000000
both 11 12
activate ffffff0300010f4700000000
both 13 14
activate ffffc70300019a6600000000
both 15 16
activate ffffc80300019a6600000000
both 17 17
activate ffffff0700ff123400000000
both 18 18
report
events 48
sent 19 19
shown 7 255 1234 mode 8 priority 255 remaining 65535 text -
accepted 16 ffffff0300019a66c0000201
accepted 44 ffffc80300019a6600000000
accepted 47 ffffff0700ff123400000000
ledger 7 ffffff0300019a66c0000201 accepted
ledger 8 ffffff060001000000000000 refused 5
ledger 10 ffffff0300039a6600000000 refused 5
ledger 12 ffffff0300020f4700000000 refused 5
ledger 14 ffffff0300010f4700000000 refused 5
ledger 16 ffffc70300019a6600000000 refused 5
ledger 18 ffffc80300019a6600000000 accepted
ledger 19 ffffff0700ff123400000000 accepted
",
    "\
# the last second of five minutes
bench
letter 3 5
times 299 sign-tick
report
events 316
sent 7 7
shown 3 1 9a66 mode 8 priority 200 remaining 1 text 41
accepted 16 0005ff0300019a66c0000201
ledger 7 0005ff0300019a66c0000201 accepted
",
    "\
# their end
bench
letter 3 5
times 300 sign-tick
report
events 317
sent 7 7
shown 7 1 0000 mode 14 priority 1 remaining 65535 text -
accepted 16 0005ff0300019a66c0000201
ledger 7 0005ff0300019a66c0000201 accepted
",
    "\
# the row is changed while its message is shown
bench
letter 3 65535
named other-text
report
events 19
sent 7 9
shown 3 1 9a66 mode 8 priority 200 remaining 65535 text 41
accepted 16 ffffff0300019a66c0000201
ledger 7 ffffff0300019a66c0000201 accepted
",
];

/// The centre's requests without a reply, its numbers at their end, and commands that it does not take.
pub static LEDGERS: [&str; 10] = [
    "\
# a request that waits for its reply
bench
blank 255 65535 255 0.0.0.0
report
events 1
sent 1 0
shown 7 1 0000 mode 10 priority 1 remaining 65535 text -
ledger 1 ffffff0700ff000000000000 waiting
",
    "\
# sent three times, and not given up after eight seconds
bench
blank 255 65535 255 0.0.0.0
times 8 centre-tick
report
events 9
sent 3 0
shown 7 1 0000 mode 10 priority 1 remaining 65535 text -
ledger 1 ffffff0700ff000000000000 waiting
",
    "\
# given up after nine
bench
blank 255 65535 255 0.0.0.0
times 9 centre-tick
report
events 10
sent 3 0
shown 7 1 0000 mode 10 priority 1 remaining 65535 text -
ledger 1 ffffff0700ff000000000000 noreply
",
    "\
# the centre starts again, and the reply comes too late
bench
blank 255 65535 255 0.0.0.0
centre-restart
both 0 0
report
events 4
sent 1 1
shown 7 255 0000 mode 8 priority 255 remaining 65535 text -
accepted 3 ffffff0700ff000000000000
ledger 1 ffffff0700ff000000000000 unknown
",
    "\
# a publication without a reply makes no entry, and the next request has another number
bench
publish 3 1 41 - 0 0 200 65535 255 192.0.2.1
times 9 centre-tick
blank 255 65535 255 0.0.0.0
report
events 11
sent 4 0
shown 7 1 0000 mode 10 priority 1 remaining 65535 text -
ledger 2 ffffff0700ff000000000000 waiting
",
    "\
# the last number
sign 2147483647 high
activate ffffff0300019a6600000000
both 0 0
blank 1 0 0 0.0.0.0
report
events 4
sent 1 1
shown 7 1 0000 mode 10 priority 1 remaining 65535 text -
ledger 2147483647 ffffff0300019a6600000000 refused 5
",
    "\
# no number is left from the first
sign 4294967295 high
blank 1 0 0 0.0.0.0
report
events 1
sent 0 0
shown 7 1 0000 mode 10 priority 1 remaining 65535 text -
",
    "\
# other memory, number 0, service 2, priority 0, too long; and then one that is taken, with the most octets
bench
publish 2 1 41 - 0 0 200 65535 255 192.0.2.1
publish 5 1 41 - 0 0 200 65535 255 192.0.2.1
publish 3 0 41 - 0 0 200 65535 255 192.0.2.1
publish 3 1 41 - 2 0 200 65535 255 192.0.2.1
publish 3 1 41 - 0 2 200 65535 255 192.0.2.1
publish 3 1 41 - 0 0 0 65535 255 192.0.2.1
blank 0 0 0 0.0.0.0
blank 256 0 0 0.0.0.0
long 513 127
long 512 128
long 512 127
report
events 11
sent 1 0
shown 7 1 0000 mode 10 priority 1 remaining 65535 text -
",
    "\
# commands while one is under way
bench
blank 1 5 255 192.0.2.1
blank 2 5 255 192.0.2.1
publish 3 1 41 - 0 0 200 65535 255 192.0.2.1
activate ffffff0300019a6600000000
report
events 4
sent 1 0
shown 7 1 0000 mode 10 priority 1 remaining 65535 text -
ledger 1 0005ff0700010000c0000201 waiting
",
    "\
# deliveries of what was never sent
bench
to-sign 0
to-centre 0
to-sign 4294967295
forge-sign -
forge-centre -
report
events 5
sent 0 0
shown 7 1 0000 mode 10 priority 1 remaining 65535 text -
",
];

/// Losses of power and of communications.
pub static LOSSES: [&str; 14] = [
    "\
# without power nothing is heard and no time passes
bench
letter 3 5
named long-loss-keeps
power-lost
named get
times 400 sign-tick
report
events 420
sent 7 8
shown 7 1 0000 mode 13 priority 1 remaining 65535 text -
accepted 16 0005ff0300019a66c0000201
ledger 7 0005ff0300019a66c0000201 accepted
",
    "\
# what was shown comes back after a loss of a second
bench
letter 3 5
named long-loss-keeps
power-lost
power-back 1
report
events 20
sent 7 8
shown 3 1 9a66 mode 10 priority 200 remaining 65535 text 41
accepted 16 0005ff0300019a66c0000201
ledger 7 0005ff0300019a66c0000201 accepted
",
    "\
# and after one of no second
bench
letter 3 5
named long-loss-keeps
power-lost
power-back 0
report
events 20
sent 7 8
shown 3 1 9a66 mode 10 priority 200 remaining 65535 text 41
accepted 16 0005ff0300019a66c0000201
ledger 7 0005ff0300019a66c0000201 accepted
",
    "\
# a short loss has a code of its own
bench
letter 3 5
named long-loss-keeps
named short-is-a-second
power-lost
power-back 1
report
events 21
sent 7 9
shown 7 1 0000 mode 10 priority 1 remaining 65535 text -
accepted 16 0005ff0300019a66c0000201
ledger 7 0005ff0300019a66c0000201 accepted
",
    "\
# a return without a loss
bench
letter 3 5
power-back 5
report
events 18
sent 7 7
shown 3 1 9a66 mode 8 priority 200 remaining 5 text 41
accepted 16 0005ff0300019a66c0000201
ledger 7 0005ff0300019a66c0000201 accepted
",
    "\
# a second loss while the power is off
bench
letter 3 5
named long-loss-keeps
power-lost
power-lost
power-back 1
report
events 21
sent 7 8
shown 3 1 9a66 mode 10 priority 200 remaining 65535 text 41
accepted 16 0005ff0300019a66c0000201
ledger 7 0005ff0300019a66c0000201 accepted
",
    "\
# a volatile message is gone with the power
bench
letter 4 65535
named short-is-ten-seconds
named short-loss-shows-volatile
power-lost
power-back 10
report
events 21
sent 7 9
shown 7 1 0000 mode 10 priority 1 remaining 65535 text -
accepted 16 ffffff0400019a66c0000201
ledger 7 ffffff0400019a66c0000201 accepted
",
    "\
# silence for 59 seconds
bench
named silence-of-a-minute
times 59 sign-tick
report
events 60
sent 0 1
shown 7 1 0000 mode 10 priority 1 remaining 65535 text -
",
    "\
# silence for 60 seconds
bench
named silence-of-a-minute
times 60 sign-tick
report
events 61
sent 0 1
shown 7 1 0000 mode 12 priority 1 remaining 65535 text -
",
    "\
# a datagram that is dropped does not end it
bench
named silence-of-a-minute
times 30 sign-tick
named nothing
times 30 sign-tick
report
events 62
sent 0 1
shown 7 1 0000 mode 12 priority 1 remaining 65535 text -
",
    "\
# one that is answered does end it
bench
named silence-of-a-minute
times 59 sign-tick
named get
times 59 sign-tick
report
events 120
sent 0 2
shown 7 1 0000 mode 10 priority 1 remaining 65535 text -
",
    "\
# and it begins again after that
bench
named silence-of-a-minute
times 59 sign-tick
named get
times 60 sign-tick
report
events 121
sent 0 2
shown 7 1 0000 mode 12 priority 1 remaining 65535 text -
",
    "\
# a code of what is shown
bench
letter 3 5
named silence-keeps
named silence-of-a-minute
times 60 sign-tick
report
events 79
sent 7 9
shown 3 1 9a66 mode 12 priority 200 remaining 65535 text 41
accepted 16 0005ff0300019a66c0000201
ledger 7 0005ff0300019a66c0000201 accepted
",
    "\
# the duration ends in the same second
bench
letter 3 1
named silence-of-a-minute
times 60 sign-tick
report
events 78
sent 7 8
shown 7 1 0000 mode 12 priority 1 remaining 65535 text -
accepted 16 0001ff0300019a66c0000201
ledger 7 0001ff0300019a66c0000201 accepted
",
];

/// Defaults that are written.
pub static DEFAULTS: [&str; 5] = [
    "\
# the permanent message has a character that font 2 has not
bench
named font-two
activate ffffff020001750200000000
to-sign 0
to-centre 1
to-sign 1
to-centre 2
report
events 6
sent 2 3
shown 7 1 0000 mode 10 priority 1 remaining 65535 text -
ledger 1 ffffff020001750200000000 refused 5
",
    "\
# `A` is in both fonts, and is activated again
bench
letter 3 65535
named font-two
activate ffffff0300019a66c0000201
to-sign 7
to-centre 8
report
events 21
sent 8 9
shown 3 1 9a66 mode 8 priority 200 remaining 65535 text 41
accepted 16 ffffff0300019a66c0000201
accepted 20 ffffff0300019a66c0000201
ledger 7 ffffff0300019a66c0000201 accepted
ledger 8 ffffff0300019a66c0000201 accepted
",
    "\
# a code is judged under the default of its own SET, and then nothing is set: the same code is accepted after it
bench
named font-two-and-code
activate ffffff020001750200000000
to-sign 0
to-centre 1
report
events 4
sent 1 2
shown 2 1 7502 mode 8 priority 100 remaining 65535 text 42
accepted 3 ffffff020001750200000000
ledger 1 ffffff020001750200000000 accepted
",
    "\
# two lines are too high in font 1
bench
publish 3 1 5b6e6c5d41 - 0 0 200 65535 255 192.0.2.1
both 0 3
sign-tick
both 4 4
report
events 12
sent 5 5
shown 7 1 0000 mode 10 priority 1 remaining 65535 text -
",
    "\
# and not in font 2
bench
named font-two
publish 3 1 5b6e6c5d41 - 0 0 200 65535 255 192.0.2.1
to-sign 0
to-centre 1
to-sign 1
to-centre 2
to-sign 2
to-centre 3
to-sign 3
to-centre 4
sign-tick
to-sign 4
to-centre 5
to-sign 5
to-centre 6
centre-tick
to-sign 6
to-centre 7
report
events 18
sent 7 8
shown 3 1 e29e mode 8 priority 200 remaining 65535 text 5b6e6c5d41
accepted 17 ffffff030001e29ec0000201
ledger 7 ffffff030001e29ec0000201 accepted
",
];
