//! The tests, a module a subject.

mod bench;
mod cases;
mod read_back;
mod restored;
mod saved;
mod started_again;
