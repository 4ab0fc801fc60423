//! Names, values, views and transactions that are read, printed and refused.

use std::alloc::Global;
use std::process::Abort;
use vp_base::{Name, NameFault, NoMemory, SiteId, TxnId, Value, ViewId, parse_place, place};
use vp_text::Cursor;

/// The byte of the fault, where there is one. These tests never run out of memory.
fn fault_of<T: Drop>(read: Result<T, NameFault>) -> Option<usize> {
    match read {
        Ok(_word) => None,
        Err(NameFault::BadName { at }) => Some(at),
        Err(NameFault::NoMemory) => Some(usize::MAX),
    }
}

#[test]
fn names_are_refused_at_their_places(rt: HostRuntime) {
    let cases: [(&[u8], Option<usize>); 7] = [
        (b"balance_7", None),
        (b"aaaaaaaaaaaaaaaa", None),
        (b"aaaaaaaaaaaaaaaaa", Some(16)),
        (b"", Some(0)),
        (b"Balance", Some(0)),
        (b"bal ance", Some(3)),
        (b"ab\n", Some(2)),
    ];
    for (text, at) in cases {
        assert_eq!(rt; fault_of(Name::read(rt.alloc(), text)), at);
    }
}

#[test]
fn values_are_refused_at_their_places(rt: HostRuntime) {
    let most = vec![in rt.alloc(); b'a'; 1024].expect(&rt, "memory");
    let more = vec![in rt.alloc(); b'a'; 1025].expect(&rt, "memory");
    let cases: [(&[u8], Option<usize>); 6] = [
        (b"~A!z", None),
        (b"a b", Some(1)),
        (b"", Some(0)),
        (b"a\x7f", Some(1)),
        (&most, None),
        (&more, Some(1024)),
    ];
    for (text, at) in cases {
        assert_eq!(rt; fault_of(Value::read(rt.alloc(), text)), at);
    }
}

fn printed_view(alloc: Global, view: ViewId) -> Result<Vec<u8>, NoMemory> {
    let mut out = Vec::new(alloc);
    view.print(&mut out)?;
    Ok(out)
}

/// Whether the text is a view that is printed as it was read, or is refused at this byte.
fn is_view(alloc: Global, text: &[u8], at: Option<usize>) -> Result<bool, NoMemory> {
    match ViewId::read(text) {
        Ok(view) => Ok(at.is_none() && printed_view(alloc, view)?.as_slice() == text),
        Err(e) => Ok(Some(e.at) == at),
    }
}

#[test]
fn views_are_printed_or_refused_at_their_places(rt: HostRuntime) {
    let cases: [(&[u8], Option<usize>); 10] = [
        (b"0@0", None),
        (b"12@16", None),
        (b"18446744073709551615@1", None),
        (b"18446744073709551616@1", Some(19)),
        (b"1@17", Some(3)),
        (b"0@1", Some(2)),
        (b"1@0", Some(2)),
        (b"01@1", Some(1)),
        (b"1@1 ", Some(3)),
        (b"", Some(0)),
    ];
    for (text, at) in cases {
        assert!(rt;
            is_view(rt.alloc(), text, at).expect(&rt, "memory"),
            "{text:?}"
        );
    }
}

fn printed_txn(alloc: Global, txn: TxnId) -> Result<Vec<u8>, NoMemory> {
    let mut out = Vec::new(alloc);
    txn.print(&mut out)?;
    Ok(out)
}

/// Whether the text is a transaction that is printed as it was read, or is refused at this byte.
fn is_txn(alloc: Global, text: &[u8], at: Option<usize>) -> Result<bool, NoMemory> {
    match TxnId::read(text) {
        Ok(txn) => Ok(at.is_none() && printed_txn(alloc, txn)?.as_slice() == text),
        Err(e) => Ok(Some(e.at) == at),
    }
}

#[test]
fn transactions_are_printed_or_refused_at_their_places(rt: HostRuntime) {
    let cases: [(&[u8], Option<usize>); 8] = [
        (b"3.1.12", None),
        (b"16.4294967295.4294967295", None),
        (b"1.4294967296.1", Some(11)),
        (b"17.1.1", Some(1)),
        (b"0.1.1", Some(0)),
        (b"1.0.1", Some(2)),
        (b"1.1.1.", Some(5)),
        (b"1.1", Some(3)),
    ];
    for (text, at) in cases {
        assert!(rt;
            is_txn(rt.alloc(), text, at).expect(&rt, "memory"),
            "{text:?}"
        );
    }
}

#[test]
fn later_views_are_taken(rt: HostRuntime) {
    let last = ViewId { number: 5, site: 2 };
    let cases: [(&[u8], bool, usize); 5] = [
        (b"5@2 ", true, 1),
        (b"7@1", true, 0),
        (b"5@1 ", false, 1),
        (b"3@1", false, 2),
        (b"0@0", false, 3),
    ];
    for (text, taken, left) in cases {
        let mut cursor = Cursor::new(text);
        let view = ViewId::parse_from(&mut cursor, last);
        assert_eq!(rt; (view.is_ok(), cursor.left()), (taken, left));
    }
}

/// Reads the name `ab` and prints it; false where it isn't there.
fn takes_name(alloc: Global, cursor: &mut Cursor, out: &mut Vec<u8>) -> Result<bool, NoMemory> {
    let Ok(name) = Name::parse(alloc, cursor) else {
        return Ok(false);
    };
    name.print(out)?;
    Ok(name.is(b"ab"))
}

/// Reads the value `=x~` and prints it; false where it isn't there.
fn takes_value(alloc: Global, cursor: &mut Cursor, out: &mut Vec<u8>) -> Result<bool, NoMemory> {
    let Ok(value) = Value::parse(alloc, cursor) else {
        return Ok(false);
    };
    value.print(out)?;
    Ok(value.is(b"=x~"))
}

/// Reads a name and a value after it, and prints them; nothing where they are others.
fn taken(alloc: Global, cursor: &mut Cursor) -> Result<Vec<u8>, NoMemory> {
    let mut out = Vec::new(alloc);
    if takes_name(alloc, cursor, &mut out)? && takes_value(alloc, cursor, &mut out)? {
        return Ok(out);
    }
    Ok(Vec::new(alloc))
}

#[test]
fn words_are_taken_and_printed(rt: HostRuntime) {
    let mut cursor = Cursor::new(b"ab=x~ 3");
    assert_eq!(rt;
        taken(rt.alloc(), &mut cursor)
            .expect(&rt, "memory")
            .as_slice(),
        b"ab=x~".as_slice()
    );
    assert!(rt; cursor.literal(b" ").is_ok());
    assert!(rt; SiteId::parse(&mut cursor).is_ok());
    assert_eq!(rt; cursor.left(), 0);
}

/// The names `ab` and `abcd`.
fn two_names(rt: &impl Abort, alloc: Global) -> Vec<Name> {
    let mut names = Vec::new(alloc);
    for text in [b"ab".as_slice(), b"abcd"] {
        let name = Name::read(alloc, text).expect(rt, "a name");
        names.push(name).expect(rt, "memory");
    }
    names
}

/// The index among these of the name that is read, and how many bytes are left.
fn taken_place(names: &[Name], text: &[u8]) -> (Option<usize>, usize) {
    let mut cursor = Cursor::new(text);
    match parse_place(&mut cursor, names) {
        Ok(found) => (Some(found), cursor.left()),
        Err(e) => (None, e.left),
    }
}

#[test]
fn names_are_found_by_their_places(rt: HostRuntime) {
    let names = two_names(&rt, rt.alloc());
    assert!(rt; place(&names, b"abcd") == Some(1) && place(&names, b"abc").is_none());
    let cases: [(&[u8], Option<usize>, usize); 4] = [
        (b"ab x", Some(0), 2),
        (b"abcde", Some(1), 1),
        (b"abc ", None, 1),
        (b"b", None, 1),
    ];
    for (text, place, left) in cases {
        assert_eq!(rt; taken_place(&names, text), (place, left));
    }
}
