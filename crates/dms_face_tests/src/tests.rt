//! The tests, a module a subject.

mod checks;
mod faces;
mod pages;
mod pictures;
mod rows;
