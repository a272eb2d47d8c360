//! What is handed to a central system: a command is a word (`scripts.rt`), a reply begins with `>`, and `tick` has the
//! number of ticks. A line of words before each reply says what it is. Each script is made of parts, one after another.

/// A row is opened.
const OPENED: &str = "\
publish
# the row can be modified
> 302e020100040561646d696ea2220201070201000201003017301506102b060104018936040203050801090301020106
# the row is being modified
> 302e020100040561646d696ea2220201080201000201003017301506102b060104018936040203050801090301020102";

/// It is filled.
const FILLED: &str = "\
# the fields are written
> 30818d020100040561646d696ea281800201090201000201003075301506102b060104018936040203050801030301040141301606102b06010401893604020305080104030104026f70301506102b060104018936040203050801060301020100301506102b060104018936040203050801070301020100301606102b060104018936040203050801080301020200c8
# the row is to be validated
> 302e020100040561646d696ea22202010a0201000201003017301506102b060104018936040203050801090301020107";

const STILL_VALIDATING: &str = "\
# the row is still being validated
> 302e020100040561646d696ea22202010b0201000201003017301506102b060104018936040203050801090301020103";

const VALID: &str = "\
# the row is valid
> 302e020100040561646d696ea22202010b0201000201003017301506102b060104018936040203050801090301020104
# the row's checksum
> 3030020100040561646d696ea22402010c0201000201003019301706102b0601040189360402030508010503010203009a66";

/// It is activated, and then another message, which is refused.
const ACTIVATED: &str = "\
tick 1
# the activation is accepted
> 3036020100040561646d696ea22a02010d020100020100301f301d060d2b060104018936040203060300040c0003ff0300019a66c0000207
activate
# the activation is refused with genErr
> 3036020100040561646d696ea22a02010e020105020101301f301d060d2b060104018936040203060300040cffff0503000121214000020a";

const EXPLAINED: &str = "\
# the cause of the refusal: 7
> 302b020100040561646d696ea21f02010f02010002010030143012060d2b060104018936040203061100020107";

/// A row is opened and filled, and no reply comes to the last request.
pub const FILLING: &[&str] = &[OPENED, "tick 4"];

/// A row is being validated.
pub const VALIDATING: &[&str] = &[OPENED, FILLED, STILL_VALIDATING];

/// A row is valid, and is to be activated at the next tick.
pub const WRITTEN: &[&str] = &[OPENED, FILLED, VALID];

/// One message is accepted, another refused, and the cause asked for.
pub const REFUSED: &[&str] = &[OPENED, FILLED, VALID, ACTIVATED];

/// The same, and then a blank message is activated.
pub const BLANK: &[&str] = &[OPENED, FILLED, VALID, ACTIVATED, EXPLAINED, "blank"];

/// The last numbers: no reply, and another command.
pub const LATE: &[&str] = &["blank", "tick 9", "publish-late"];

/// Restarts, until no number is left.
pub const USED_UP: &[&str] = &[
    "blank",
    "tick 9",
    "publish-late",
    "restart",
    "activate",
    "restart",
    "blank",
];
