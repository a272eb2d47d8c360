//! The tests, a module a subject.

mod conversations;
mod exact;
mod filling;
mod fonts;
mod multi;
mod streams;
mod text;
mod values;
