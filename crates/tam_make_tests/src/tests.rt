// The large inputs, against texts that a program of another language wrote after docs/FORMATS.md, "Large inputs".
use std::test::Fail;
use tam_make::{Shape, make};

// A number in which each byte of a text and its place count.
fn digest(text: &[u8]) -> u32 {
    let mut digest: u32 = 0;
    for byte in text {
        digest = digest.wrapping_mul(31).wrapping_add(u32::from(*byte));
    }
    digest
}

#[test]
fn texts_are_those_of_another_program(rt: HostRuntime) -> Result<(), Fail> {
    let cases = [
        (Shape::Ladder, 1, 1707, LADDER_1),
        (Shape::Ladder, 2, 3372, LADDER_2),
        (Shape::Ladder, 200, 333_918, LADDER_200),
        (Shape::Wave, 1, 1258, WAVE),
        (Shape::Wave, 60, 1258, WAVE),
    ];
    for (shape, n, len, expected) in cases {
        let text = make(rt.alloc(), shape, n).ok().ok_or("memory")?;
        assert_eq!(rt; text.len(), len, "the length of {shape:?} {n}");
        assert_eq!(rt; digest(&text), expected, "the bytes of {shape:?} {n}");
    }
    Ok(())
}

const LADDER_1: u32 = 3_428_924_078;

const LADDER_2: u32 = 3_298_536_959;

const LADDER_200: u32 = 1_083_261_064;

const WAVE: u32 = 1_327_827_742;
