use crate::{Class, Cursor, Unexpected, print_number};
use std::alloc::AllocError;

/// Whether the field was read, with the number of bytes that are left after it or at its fault.
fn left(taken: bool, cursor: &Cursor) -> (bool, usize) {
    (taken, cursor.left())
}

#[test]
fn words_end_where_they_must(rt: HostRuntime) {
    let cases: [(&[u8], Class, bool, usize); 6] = [
        (b"balance_7 x", Class::Name, true, 2),
        (b"aaaaaaaaaaaaaaaab", Class::Name, true, 1),
        (b"Balance", Class::Name, false, 7),
        (b"A~! ", Class::Value, true, 1),
        (b" a", Class::Value, false, 2),
        (b"", Class::Value, false, 0),
    ];
    for (text, class, taken, rest) in cases {
        let mut cursor = Cursor::new(text);
        let word = cursor.word(class);
        assert_eq!(rt; left(word.is_ok(), &cursor), (taken, rest));
    }
}

#[test]
fn numbers_are_at_fault_where_no_number_goes_on(rt: HostRuntime) {
    let cases: [(&[u8], u64, u64, bool, usize); 9] = [
        (b"16.", 1, 16, true, 1),
        (b"17", 1, 16, true, 1),
        (b"0", 1, 16, false, 1),
        (b"01", 0, 16, true, 1),
        (b"3@", 5, u64::MAX, false, 1),
        (b"30@", 5, u64::MAX, true, 1),
        (b"18446744073709551615", 0, u64::MAX, true, 0),
        (b"18446744073709551616", 0, u64::MAX, true, 1),
        (b"x", 0, 9, false, 1),
    ];
    for (text, least, most, taken, rest) in cases {
        let mut cursor = Cursor::new(text);
        let number = cursor.number(least, most);
        assert_eq!(rt; left(number.is_ok(), &cursor), (taken, rest));
    }
}

#[test]
fn fields_follow_each_other(rt: HostRuntime) -> Result<(), Unexpected> {
    let mut cursor = Cursor::new(b"  site 3 port 65535");
    cursor.advance(2);
    cursor.literal(b"site ")?;
    assert_eq!(rt; cursor.number_u8(1, 16)?, 3);
    let mut other = cursor.fork();
    assert_eq!(rt; cursor.literal(b" part "), Err(Unexpected { left: 9 }));
    other.literal(b" port ")?;
    assert_eq!(rt; other.number_u32(1, 65535)?, 65535);
    other.end()?;
    assert_eq!(rt; other.rest().len(), 0);
    let near = Unexpected { left: 8 };
    assert_eq!(rt; near.farther(Unexpected { left: 5 }).left, 5);
    Ok(())
}

#[test]
fn numbers_are_printed(rt: HostRuntime) -> Result<(), AllocError> {
    let mut out = Vec::new(rt.alloc());
    print_number(&mut out, 0)?;
    print_number(&mut out, u64::MAX)?;
    assert_eq!(rt; out.as_slice(), b"018446744073709551615".as_slice());
    Ok(())
}
