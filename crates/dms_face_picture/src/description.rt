//! What a document says where it is not seen.

ghost use Rattle.std.specs.Prelude.{◌≡◌, ◌<◌, ◌/◌, ◌%◌, ◌∷◌, [], ◌++◌, codes, OnOk};
ghost use Rattle.std.specs.List.{flat_map};
ghost use Rattle.dms_face_picture.specs.Picture.{digit, said, description};

use crate::text::put;
use std::io;
use std::io::Write;

/// Appends a message's text.
pub(crate) fn put_description(out: &mut Vec<u8>, text: &[u8]) -> io::Result<()>
    ensures { OnOk result (out.new.items ≡ out.old.items ++ description text.now) }
{
    put(out, "<desc>")?;
    put_octets(out, text)?;
    put(out, "</desc>\n")
}

fn put_octets(out: &mut Vec<u8>, text: &[u8]) -> io::Result<()>
    ensures { OnOk result (out.new.items ≡ out.old.items ++ flat_map said text.now) }
{
    for octet in text {
        put_octet(out, *octet)?;
    }
    Ok(())
}

/// Appends an octet as XML has it where it is printable ASCII, else `\x` and its two digits.
fn put_octet(out: &mut Vec<u8>, octet: u8) -> io::Result<()>
    ensures { OnOk result (out.new.items ≡ out.old.items ++ said octet) }
{
    match octet {
        b'&' => put(out, "&amp;"),
        b'<' => put(out, "&lt;"),
        b'>' => put(out, "&gt;"),
        b' '..=b'~' => out.write_all(&[octet]),
        _ => out.write_all(&[b'\\', b'x', digit(octet / 16), digit(octet % 16)]),
    }
}

/// A digit of the base 16.
fn digit(number: u8) -> u8
    requires { number < 16 }
    ensures { result ≡ digit number }
{
    if number < 10 {
        b'0' + number
    } else {
        b'a' + (number - 10)
    }
}
