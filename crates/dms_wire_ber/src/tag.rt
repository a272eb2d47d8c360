//! The tags of X.690's types (8.1.2; X.680, 8.4): the first octet of an element.

pub const INTEGER: u8 = 2;

pub const OCTET_STRING: u8 = 4;

pub const NULL: u8 = 5;

pub const OBJECT_IDENTIFIER: u8 = 6;

pub const SEQUENCE: u8 = 48;
