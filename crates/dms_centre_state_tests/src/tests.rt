//! The tests, a module a subject.

mod cases;
mod restored;
mod saved;
mod scripts;
mod states;
