//! The bytes of a text, by examples.

use cx_print::Text;

#[test]
fn appends_in_order(rt: HostRuntime) {
    let mut text = Text::new();
    assert!(rt; text.is_empty());
    text.push_bytes(b"format at ");
    text.push_decimal(4337);
    assert_eq!(rt; text.bytes(), b"format at 4337".as_slice());
    assert_eq!(rt; text.len(), 14);
    text.push(b'!');
    assert_eq!(rt; text.bytes(), b"format at 4337!".as_slice());
    assert!(rt; !text.is_empty());
    let mut full = Text::new();
    full.push_bytes(&[7; 48]);
    assert_eq!(rt; full.bytes(), [7; 48].as_slice());
}

#[test]
fn writes_decimal_digits(rt: HostRuntime) {
    let cases = [
        (0, b"0".as_slice()),
        (9, b"9"),
        (10, b"10"),
        (100, b"100"),
        (18446744073709551615, b"18446744073709551615"),
    ];
    for (number, digits) in cases {
        let mut text = Text::new();
        text.push_decimal(number);
        assert_eq!(rt; text.bytes(), digits, "{number}");
    }
}
