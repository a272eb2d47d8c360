//! The tests, a module a subject.

mod checksum;
mod codes;
mod message_codes;
mod objects;
mod replies;
mod saved;
mod tables;
