//! Octets, numbers and digits that are put into a buffer.

use dms_text_filling::{put, put_digits, put_number, put_texts};

#[test]
fn what_has_no_place_is_counted(rt: HostRuntime) {
    let mut buffer = [7; 8];
    assert_eq!(rt; put_number(&mut buffer, 0, "page", 12345u16), 11);
    assert!(rt; &buffer == b"page 123");
    assert_eq!(rt; put(&mut buffer, 6, b"45\n"), 9);
    assert!(rt; &buffer == b"page 145");
    assert_eq!(rt; put_texts(&mut buffer, usize::MAX, "a", "b"), usize::MAX);
    assert!(rt; &buffer == b"page 145");
}

#[test]
fn digits_are_put_many_at_a_time(rt: HostRuntime) {
    let mut buffer = [7; 202];
    assert_eq!(rt; put_digits(&mut buffer, 1, &[0xa5; 100]), 201);
    assert!(rt; buffer[0] == 7 && buffer[1] == b'a' && buffer[200] == b'5' && buffer[201] == 7);
}
