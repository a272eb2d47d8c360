//! The tags that SNMP adds (RFC 1155, 6; RFC 1157, 4.1).

pub const IP_ADDRESS: u8 = 64;

pub const COUNTER: u8 = 65;

pub const GAUGE: u8 = 66;

pub const TIME_TICKS: u8 = 67;

pub const OPAQUE: u8 = 68;

pub const GET: u8 = 160;

pub const GET_NEXT: u8 = 161;

pub const RESPONSE: u8 = 162;

pub const SET: u8 = 163;
