//! The text of an agent's state, cut behind its first line `end`.

ghost use Rattle.std.specs.Prelude.{◌≡◌, ◌≤◌, ◌+◌, length};
ghost use Rattle.dms_agent_state.specs.Parts.{objects_part, sign_part};

use dms_text_exact::{behind, cut};

/// The text of the sign's state, and the lines of objects behind it. A text without a line `end` is all the sign's.
pub fn state_parts(text: &[u8]) -> (&[u8], &[u8])
    ensures sign { result.0.now ≡ sign_part text.now }
    ensures objects { result.1.now ≡ objects_part text.now }
    ensures whole { length result.0.now + length result.1.now ≡ length text.now }
{
    let objects = objects_part(text);
    (&text[..text.len() - objects.len()], objects)
}

/// What stands behind the first line `end`.
fn objects_part(text: &[u8]) -> &[u8]
    ensures part { result.now ≡ objects_part text.now }
    ensures short { length result.now ≤ length text.now }
{
    let mut rest = text;
    'lines: while !rest.is_empty() {
        if let Some(objects) = behind(b"end\n", rest) {
            return objects;
        }
        match cut(b'\n', rest) {
            Some((_, after)) => rest = after,
            None => return &[],
        }
    }
    rest
}
