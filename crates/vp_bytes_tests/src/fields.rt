//! The bytes of fields in each buffer.

use crate::durable::table_of;
use bytes::{BufMut, BytesMut};
use std::alloc::Global;
use vp_base::{
    CallNo, Change, CopyOf, Name, NoMemory, Owner, Put, RecId, SiteId, Table, TxnId, Value, ViewId,
};
use vp_bytes::{
    put_byte, put_counted, put_maybe_view, put_name, put_numbered, put_owner, put_recs,
    put_request, put_sites, put_txn, put_u32, put_u64, put_view, read_name, read_recs, read_sites,
};
use vp_contents::{
    Version, put_content, put_table, read_content, read_table, read_value, read_writes,
};
use vp_text::Cursor;

/// The second transaction that site 3 begins in its first life.
fn a_txn() -> TxnId {
    TxnId {
        site: SiteId::of(3),
        life: 1,
        seq: 2,
    }
}

/// The first view of site 2.
fn a_view() -> ViewId {
    ViewId { number: 1, site: 2 }
}

/// Writes a byte, numbers, views, and no view.
fn put_numbers<B: BufMut>(out: &mut B) -> Result<(), NoMemory> {
    put_byte(out, 7)?;
    put_u32(out, 258)?;
    put_u64(out, 1099511627779)?;
    put_view(out, &a_view())?;
    put_maybe_view(out, &None)?;
    put_maybe_view(out, &Some(a_view()))
}

/// Writes a transaction, each kind of owner, and what a call begins with.
fn put_txns<B: BufMut>(out: &mut B, number: CallNo) -> Result<(), NoMemory> {
    put_txn(out, &a_txn())?;
    put_owner(out, &Owner::Refresh)?;
    put_owner(out, &Owner::Txn(a_txn()))?;
    put_numbered(out, &a_txn(), number)?;
    put_request(out, &a_txn(), &a_view(), number)
}

/// Writes bytes, a name, no sites, sites and records, each after its count.
fn put_lists<B: BufMut>(out: &mut B, name: &Name) -> Result<(), NoMemory> {
    put_counted(out, b"ab")?;
    put_name(out, name)?;
    put_sites(out, &[])?;
    put_sites(out, &[SiteId::of(1), SiteId::of(16)])?;
    put_recs(out, &[RecId::new(0), RecId::new(255)])
}

/// Writes one of each field: those without a count, and those after their counts.
fn put_fields<B: BufMut>(out: &mut B, alloc: Global) -> Result<(), NoMemory> {
    let Some(number) = CallNo::new(9) else {
        return Err(NoMemory);
    };
    put_numbers(out)?;
    put_txns(out, number)?;
    let Ok(name) = Name::read(alloc, b"a_1") else {
        return Err(NoMemory);
    };
    put_lists(out, &name)
}

const FIELDS: &[u8] = b"\
    \x07\0\0\x01\x02\0\0\x01\0\0\0\0\x03\0\0\0\0\0\0\0\x01\x02\0\x01\0\0\0\0\0\0\0\x01\x02\
    \x03\0\0\0\x01\0\0\0\x02\0\x01\x03\0\0\0\x01\0\0\0\x02\x03\0\0\0\x01\0\0\0\x02\0\0\0\x09\x03\0\0\0\x01\0\0\0\x02\0\0\0\0\0\0\0\x01\x02\0\0\0\x09\
    \x02ab\x03a_1\0\x02\x01\x10\x02\0\xff";

#[test]
fn fields_and_lists_have_their_bytes_in_each_buffer(rt: HostRuntime) {
    let mut bytes = BytesMut::new(rt.alloc());
    assert!(rt; put_fields(&mut bytes, rt.alloc()).is_ok());
    assert!(rt; bytes.as_slice() == FIELDS);
    let mut list = Vec::new(rt.alloc());
    assert!(rt; put_fields(&mut list, rt.alloc()).is_ok());
    assert!(rt; list.as_slice() == FIELDS);
}

/// Whether this name is next.
fn reads_name(alloc: Global, cursor: &mut Cursor, text: &[u8]) -> bool {
    match read_name(alloc, cursor) {
        Ok(name) => name.is(text),
        Err(_fault) => false,
    }
}

/// Whether this value is next.
fn reads_value(alloc: Global, cursor: &mut Cursor, text: &[u8]) -> bool {
    match read_value(alloc, cursor, Version::First) {
        Ok(value) => value.is(text),
        Err(_fault) => false,
    }
}

/// Whether these sites are next, where there may be so few.
fn reads_sites(alloc: Global, cursor: &mut Cursor, few: u8, sites: &[SiteId]) -> bool {
    match read_sites(alloc, cursor, few) {
        Ok(read) => read.as_slice() == sites,
        Err(_fault) => false,
    }
}

/// Whether these records are next.
fn reads_recs(alloc: Global, cursor: &mut Cursor, recs: &[RecId]) -> bool {
    match read_recs(alloc, cursor) {
        Ok(read) => read.as_slice() == recs,
        Err(_fault) => false,
    }
}

/// Whether the change puts this value, and no table.
fn puts(change: &Change, text: &[u8]) -> bool {
    match &change.put {
        Put::Value { value } => value.is(text) && change.table.is_none(),
        _ => false,
    }
}

/// Whether one write is next, of this value to this record.
fn reads_write(alloc: Global, cursor: &mut Cursor, rec: u8, text: &[u8]) -> bool {
    match read_writes(alloc, cursor, Version::First) {
        Ok(writes) => match writes.as_slice() {
            [(at, change)] => at.get() == rec && puts(change, text),
            _ => false,
        },
        Err(_fault) => false,
    }
}

#[test]
fn names_values_sites_records_and_writes_are_read(rt: HostRuntime) {
    let alloc = rt.alloc();
    let mut cursor = Cursor::new(b"\x03a_1\x0211\0\x02\x01\x10\x02\0\xff\x01\x05\x0211");
    assert!(rt; reads_name(alloc, &mut cursor, b"a_1"));
    assert!(rt; reads_value(alloc, &mut cursor, b"11"));
    assert!(rt; reads_sites(alloc, &mut cursor, 0, &[]));
    assert!(rt; reads_sites(alloc, &mut cursor, 1, &[SiteId::of(1), SiteId::of(16)]));
    assert!(rt; reads_recs(alloc, &mut cursor, &[RecId::new(0), RecId::new(255)]));
    assert!(rt; reads_write(alloc, &mut cursor, 5, b"11"));
    assert!(rt; cursor.rest().is_empty());
}

/// Writes a content that is a value, one that is none, and a table, in the second version.
fn put_contents<B: BufMut>(out: &mut B, value: &Value, table: &Table) -> Result<(), NoMemory> {
    put_content(out, Version::Second, &Some(value.copy_of()?))?;
    put_content(out, Version::Second, &None)?;
    put_table(out, table)
}

const CONTENTS: &[u8] = b"\x01\0\x0211\0\x02\x01\0\x01\x10\xff\xff";

/// A value, no content and a table of a record, and a table of a record that keeps its content.
const CHANGES: &[u8] = b"\
    \x03\0\x01\0\x0211\0\x05\0\x01\x02\x01\0\x01\x10\xff\xff\xff\x02\x01\x02\x01\0\x01\x10\xff\xff";

#[test]
fn contents_and_tables_have_their_bytes(rt: HostRuntime) {
    let value = Value::read(rt.alloc(), b"11").expect(&rt, "a value");
    let table = table_of(&rt, rt.alloc(), b"\x02\x01\0\x01\x10\xff\xff");
    let mut bytes = BytesMut::new(rt.alloc());
    assert!(rt; put_contents(&mut bytes, &value, &table).is_ok());
    assert!(rt; bytes.as_slice() == CONTENTS);
}

/// Whether this content is next, a value or none.
fn reads_content(alloc: Global, cursor: &mut Cursor, text: Option<&[u8]>) -> bool {
    match (read_content(alloc, cursor, Version::Second), text) {
        (Ok(Some(value)), Some(text)) => value.is(text),
        (Ok(None), None) => true,
        _ => false,
    }
}

/// Whether the site has the weight.
fn is_share(share: &(SiteId, u16), site: u8, weight: u16) -> bool {
    share.0.get() == site && share.1 == weight
}

/// Whether weights of two sites are next.
fn reads_table(alloc: Global, cursor: &mut Cursor) -> bool {
    match read_table(alloc, cursor) {
        Ok(table) => match table.as_slice() {
            [first, second] => is_share(first, 1, 1) && is_share(second, 16, 65535),
            _ => false,
        },
        Err(_fault) => false,
    }
}

/// How many changes are next, where the last one keeps the content.
fn changes_read(alloc: Global, cursor: &mut Cursor) -> usize {
    match read_writes(alloc, cursor, Version::Second) {
        Ok(writes) => match writes.as_slice() {
            [.., (_rec, change)] => {
                if matches!(change.put, Put::Keep) && change.table.is_some() {
                    writes.as_slice().len()
                } else {
                    0
                }
            }
            _ => 0,
        },
        Err(_fault) => 0,
    }
}

#[test]
fn contents_tables_and_changes_are_read(rt: HostRuntime) {
    let alloc = rt.alloc();
    let mut cursor = Cursor::new(CONTENTS);
    assert!(rt; reads_content(alloc, &mut cursor, Some(b"11")));
    assert!(rt; reads_content(alloc, &mut cursor, None));
    assert!(rt; reads_table(alloc, &mut cursor));
    assert!(rt; cursor.rest().is_empty());
    let mut cursor = Cursor::new(CHANGES);
    assert!(rt; changes_read(alloc, &mut cursor) == 3);
    assert!(rt; cursor.rest().is_empty());
}
