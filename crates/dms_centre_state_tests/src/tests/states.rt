//! The texts of the states after the scripts of `cases.rt`, as the model (model/saved_centre.py) has them.

pub const FILLING_STATE: &str = "\
state 1 centre
next 10
last none
awaits
sends 2
ticks 1
step 3
polls 0
publish 3 1 41 6f70 0 0 200 3 255 192.0.2.7
end
";

pub const VALIDATING_STATE: &str = "\
state 1 centre
next 12
last none
due
step 5
polls 1
publish 3 1 41 6f70 0 0 200 3 255 192.0.2.7
end
";

pub const WRITTEN_STATE: &str = "\
state 1 centre
next 13
last none
due
step 7
polls 0
publish 3 1 41 6f70 0 0 200 3 255 192.0.2.7
end
";

pub const REFUSED_STATE: &str = "\
state 1 centre
next 16
last accepted
awaits
sends 1
ticks 0
step 8
polls 0
activate ffff0503000121214000020a
ledger 13 0003ff0300019a66c0000207 accepted
ledger 14 ffff0503000121214000020a refused 5
end
";

pub const BLANK_STATE: &str = "\
state 1 centre
next 17
last failed at step 7: the sign refused the activation for cause 7
awaits
sends 1
ticks 0
step 7
polls 0
activate 0001020700ff000000000000
ledger 13 0003ff0300019a66c0000207 accepted
ledger 14 ffff0503000121214000020a refused 5
ledger 16 0001020700ff000000000000 waiting
end
";

pub const LATE_STATE: &str = "\
state 1 centre
next 2147483647
last failed at step 7: no reply
awaits
sends 1
ticks 0
step 1
polls 0
publish 4 2 5b6e6c395d - 1 0 7 65535 6 10.0.0.255
ledger 2147483645 0001020700ff000000000000 noreply
end
";

pub const USED_UP_STATE: &str = "\
state 1 centre
next 2147483648
last failed at step 7: the central system was restarted
idle
ledger 2147483645 0001020700ff000000000000 noreply
ledger 2147483647 ffff0503000121214000020a unknown
end
";
