//! The tests, a module a subject.

mod examples;
mod memory;
mod reports;
mod scripts;
mod streams;
