// Lines, words and names, by the rules of docs/FORMATS.md, "Graph text".
use crate::{are_good_bytes, is_name, split_line, words_of};
use std::alloc::AllocError;

#[test]
fn lines_are_cut_behind_their_line_feed(rt: HostRuntime) {
    let cases: [(&[u8], &[u8], &[u8]); 4] = [
        (b"a b\nc\n", b"a b\n", b"c\n"),
        (b"\n\n", b"\n", b"\n"),
        (b"end", b"end", b""),
        (b"a\r\nb", b"a\r\n", b"b"),
    ];
    for (text, line, rest) in cases {
        let (first, others) = split_line(text);
        assert!(rt; first == line && others == rest, "at {text:?}");
    }
}

#[test]
fn words_stand_between_blanks_before_a_comment(rt: HostRuntime) -> Result<(), AllocError> {
    let words = words_of(rt.alloc(), b"\ts  = add\ta b # a sum\r\n")?;
    let expected: [&[u8]; 5] = [b"s", b"=", b"add", b"a", b"b"];
    assert_eq!(rt; words.len(), expected.len());
    for i in 0..expected.len() {
        assert!(rt; words[i] == expected[i], "word {i}");
    }
    assert_eq!(rt; words_of(rt.alloc(), b"  # nothing\n")?.len(), 0);
    Ok(())
}

#[test]
fn bytes_are_good_or_not(rt: HostRuntime) {
    let cases: [(&[u8], bool); 7] = [
        (b"dg 1\n", true),
        (b"\ta ~\r\n", true),
        (b"a\r", false),
        (b"a\rb\n", false),
        (b"\x7f\n", false),
        (b"# \xc3\xa9\n", false),
        (b"\0", false),
    ];
    for (line, good) in cases {
        assert!(rt; are_good_bytes(line) == good, "at {line:?}");
    }
}

#[test]
fn names_are_told_from_other_bytes(rt: HostRuntime) {
    let cases: [(&[u8], bool); 7] = [
        (b"_", true),
        (b"Z9_z", true),
        (b"abcdefghijklmnopqrstuvwxyz012345", true),
        (b"abcdefghijklmnopqrstuvwxyz0123456", false),
        (b"", false),
        (b"9a", false),
        (b"a-b", false),
    ];
    for (bytes, named) in cases {
        assert!(rt; is_name(bytes) == named, "at {bytes:?}");
    }
}
