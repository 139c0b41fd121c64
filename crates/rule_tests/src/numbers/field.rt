//! The names and top values of fields.
use fields::{FIELDS, Field};

// Each field's name and top, at its index.
const ROWS: [(&[u8], u128); FIELDS] = [
    (b"src", 4294967295),
    (b"dst", 4294967295),
    (b"in", u128::MAX),
    (b"out", u128::MAX),
    (b"proto", 255),
    (b"frag", 1),
    (b"sport", 65535),
    (b"dport", 65535),
    (b"flags", 63),
    (b"icmp", 65535),
    (b"ct", 13),
    (b"ttl", 255),
];

// Whether a field has its name and top.
fn has_its_row(field: Field) -> bool {
    let (name, top) = ROWS[field.index()];
    field.name() == name && field.top() == top
}

#[test]
fn fields_have_their_tops(rt: HostRuntime) {
    for field in Field::ALL.iter() {
        assert!(rt; has_its_row(*field));
    }
}
