//! An input that is taken line by line.

ghost use Rattle.std.specs.Prelude.{◌<◌, ◌≤◌, vec_len};

/// A source, and what was read from it and not taken yet.
#[derive(Drop)]
pub struct Input<S> {
    pub(crate) source: S,
    // What stands from `start` up to `end` is not taken yet.
    pub(crate) buffer: Vec<u8>,
    pub(crate) start: usize,
    pub(crate) end: usize,
    ghost ordered: { start ≤ end },
    ghost in_bounds: { end ≤ vec_len buffer },
    ghost some_room: { 0 < vec_len buffer },
}
