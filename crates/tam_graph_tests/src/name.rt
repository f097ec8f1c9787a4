// Bytes that are names, and others.
use tam_graph::Name;

#[test]
fn names_are_told_from_other_bytes(rt: HostRuntime) {
    let cases: [(&[u8], bool); 10] = [
        (b"a", true),
        (b"_", true),
        (b"Z9_z", true),
        (b"abcdefghijklmnopqrstuvwxyz012345", true),
        (b"abcdefghijklmnopqrstuvwxyz0123456", false),
        (b"", false),
        (b"9a", false),
        (b"a-b", false),
        (b"a ", false),
        (b"\xc3\xa9", false),
    ];
    for (bytes, is_name) in cases {
        match Name::of(bytes) {
            Some(name) => assert!(rt; is_name && name.is(bytes), "at {bytes:?}"),
            None => assert!(rt; !is_name, "at {bytes:?}"),
        }
    }
}
