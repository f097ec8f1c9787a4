// Texts that were assembled by hand or by an assembler, and the first fault of others.
use rv_asm::{AsmError, assemble, print_asm};
use rv_image::{Image, write_image};
use std::alloc::Global;
use std::process::Abort;
use std::test::Fail;

const HEAD: &str = ".image 1\n.stride 32\n.params 0\n.results 0\n";

fn shown(alloc: Global, text: &[u8]) -> Result<String, Fail> {
    if text.len() > 4_294_967_294 {
        return Ok(format!(in alloc; "too long")?);
    }
    Ok(match assemble(alloc, text) {
        Err(AsmError::At { line, cause }) => format!(in alloc; "{} {:?}", line, cause)?,
        Err(AsmError::NoMemory) => format!(in alloc; "no memory")?,
        Ok(image) => format!(in alloc; "{:?}", image.words())?,
    })
}

// A table has a row on each line: what is shown, a bar, and lines, where a slash stands for the end of a line. They stand behind the head lines.
fn rows_show(rt: &impl Abort, alloc: Global, head: &str, rows: &str) -> Result<(), Fail> {
    for row in rows.lines() {
        let (wanted, lines) = row.split_once('|').ok_or("a row")?;
        let mut text = String::from_str(alloc, head)?;
        for letter in lines.chars() {
            text.push(if letter == '/' { '\n' } else { letter })?;
        }
        assert_eq!(rt;
            shown(alloc, text.as_bytes())?.as_str(),
            wanted,
            "of {lines}"
        );
    }
    Ok(())
}

// Head lines and the end of a text.
const HEADS: &str = "1 Ended|
3 Ended|# note//
2 Ended|.image 1/
1 BadHead|.image 2/
1 BadHead|.image 0x1/
1 BadHead|ecall/
2 BadHead|.image 1/.stride 18/
2 BadHead|.image 1/.stride 12/
2 BadHead|.image 1/.stride 65540/
3 BadHead|.image 1/.stride 0x20/.params 65/";

#[test]
fn heads(rt: HostRuntime) -> Result<(), Fail> {
    rows_show(&rt, rt.alloc(), "", HEADS)
}

// Bytes that may not stand in a text, and blanks.
const BYTES_AND_BLANKS: &str = "4 BadHead|.image 1/.stride 32/.params 64/.results -1/
2 BadHead|.image 1/.params 0/
2 BadHead|.image 1/.stride 16 16/
[1048691]| .image\t1 # one\r//.stride 65536/.params 0x40/.results 64/ ebreak
5 BadLine|.image 1/.stride 16/.params 0/.results 0/\r /ecall/";

#[test]
fn bytes_and_blanks(rt: HostRuntime) -> Result<(), Fail> {
    rows_show(&rt, rt.alloc(), "", BYTES_AND_BLANKS)?;
    assert_eq!(rt; shown(rt.alloc(), b".image 1\xc8\n")?.as_str(), "1 BadHead");
    assert_eq!(rt;
        shown(rt.alloc(), b".image 1 # \xc8\n")?.as_str(),
        "1 BadLine"
    );
    assert_eq!(rt;
        shown(rt.alloc(), b"# \xc8\n.image 1\n")?.as_str(),
        "1 BadLine"
    );
    assert_eq!(rt; shown(rt.alloc(), b".image 1\r")?.as_str(), "1 BadHead");
    Ok(())
}

// Words of an assembler.
const WORDS: &str = "[1048691]|ebreak/
[2147484343, 4293919507, 40027059, 40035379]|lui x5, 524288/addi x6, x0, -1/div x7, x5, x6/rem x8, x5, x6/
[33735859, 33744179, 1048691]|div x9, x5, x0/rem x10, x5, x0/ebreak/
[2147483795]|addi x1, x0, -2048/
[2146435219]|addi x1,x0,0x7fF/
[2146435219]|  addi\tx1 ,\tx0 , 2047\t# most\r/
[2147483747]|beq x0, x0, -4096/
[2113933283]|beq x0, x0, 4094/";

#[test]
fn words(rt: HostRuntime) -> Result<(), Fail> {
    rows_show(&rt, rt.alloc(), HEAD, WORDS)
}

// Further ones, spelt in other ways, and labels.
const FURTHER_WORDS: &str = "[2147483759]|jal x0, -1048576/
[2147479663]|jal x0, 1048574/
[32542867]|slli x1, x1, 31/
[4294963383]|lui x1, 1048575/
[12919427, 13836323]|lw x5, 0xc(x10)/sw x13, -0(x6)/
[4294967295, 4294967295, 4294967295]|.word -1/.word 4294967295/.word 0xFFFFFFFF/
[6460515, 4292866287, 4261743843]|ecall:/bne x5, x6, on/jal x1, ecall/on:/beq x10, x0, ecall/x5:/";

#[test]
fn further_words(rt: HostRuntime) -> Result<(), Fail> {
    rows_show(&rt, rt.alloc(), HEAD, FURTHER_WORDS)
}

// Operands of no form.
const BAD_OPERANDS: &str = "5 BadLine|addi x1, x2/
6 BadLine|ecall/addi x1, x2, 3, 4/
5 BadLine|addi x32, x0, 1/
5 BadLine|addi x01, x0, 1/
5 BadLine|addi x1, x0, 1,/
5 BadLine|addi x1, x0,/
5 BadLine|addi x1 x0, 1/
5 BadLine|addi, x1, x0, 1/
5 BadLine|addi x1,, x0, 1/
5 BadLine|addi x1, x0, 1 1/
5 BadLine|addi x1, x0, (1)/
5 BadLine|ADDI x1, x0, 1/";

#[test]
fn bad_operands(rt: HostRuntime) -> Result<(), Fail> {
    rows_show(&rt, rt.alloc(), HEAD, BAD_OPERANDS)
}

// Addresses, labels and other lines of no form.
const BAD_LINES: &str = "5 BadLine|lw x1, 4 (x2)/
5 BadLine|lw x1, (x2)/
5 BadLine|lw x1, 4(x2/
5 BadLine|lw x1, 4(x2))/
5 BadLine|lw x1, foo(x32)/
5 BadLine|a: ecall/
5 BadLine|9a:/
5 BadLine|a :/
5 BadLine|abcdefghijklmnopqrstuvwxyz_123456:/
5 BadLine|ecall x1/
5 BadLine|.word/
5 BadLine|.image 1/
7 BadLine|far:/jal x0, far/frob/";

#[test]
fn bad_lines(rt: HostRuntime) -> Result<(), Fail> {
    rows_show(&rt, rt.alloc(), HEAD, BAD_LINES)
}

// Numbers out of their ranges.
const BAD_NUMBERS: &str = "5 BadNumber|addi x1, x0, 2048/
5 BadNumber|addi x1, x0, -2049/
5 BadNumber|addi x1, x0, 0xffffffff/
5 BadNumber|addi x1, x0, 4294967295/
6 BadNumber|ecall/addi x1, x0, x5/
5 BadNumber|lw x1, foo(x2)/
5 BadNumber|slli x1, x1, 32/
5 BadNumber|lui x1, 1048576/
5 BadNumber|lui x1, -1/
5 BadNumber|fence x0, x0, 4096/";

#[test]
fn bad_numbers(rt: HostRuntime) -> Result<(), Fail> {
    rows_show(&rt, rt.alloc(), HEAD, BAD_NUMBERS)
}

// Targets and words that are no numbers.
const BAD_TARGETS: &str = "5 BadNumber|beq x0, x0, 4096/
5 BadNumber|beq x0, x0, 3/
5 BadNumber|beq x0, x0, 4294967292/
5 BadNumber|jal x0, 1048576/
5 BadNumber|jal x0, 9a/
5 BadNumber|jal x0, abcdefghijklmnopqrstuvwxyz_123456/
5 BadNumber|.word 4294967296/
6 BadNumber|jal x0, far/addi x1, x0, 2048/";

#[test]
fn bad_targets(rt: HostRuntime) -> Result<(), Fail> {
    rows_show(&rt, rt.alloc(), HEAD, BAD_TARGETS)
}

// Names twice, unknown names, and texts without a word.
const NAMES: &str = "5 Ended|
7 Ended|a://
6 TwiceNamed|a:/a:/
7 TwiceNamed|beq x0, x0, far/a:/a:/
5 UnknownName|beq x1, x0, far/
6 UnknownName|ecall/jal x0, x5/
7 UnknownName|jal x0, far/far:/beq x0, x0, A/";

#[test]
fn names(rt: HostRuntime) -> Result<(), Fail> {
    rows_show(&rt, rt.alloc(), HEAD, NAMES)
}

// The first word and the last of a text with so many calls between two lines.
fn with_calls(alloc: Global, first: &str, calls: usize, last: &str) -> Result<String, Fail> {
    let mut text = format!(in alloc; "{}{}", HEAD, first)?;
    for _ in 0..calls {
        text.push_str("ecall\n")?;
    }
    text.push_str(last)?;
    if text.len() > 4_294_967_294 {
        return Ok(format!(in alloc; "too long")?);
    }
    let Ok(image) = assemble(alloc, text.as_bytes()) else {
        return shown(alloc, text.as_bytes());
    };
    match image.words() {
        [word, .., behind] => Ok(format!(in alloc; "{word} .. {behind}")?),
        words => Ok(format!(in alloc; "{words:?}")?),
    }
}

// Texts of so many calls between two lines, each with what is shown of it.
fn calls_show(
    rt: &impl Abort,
    alloc: Global,
    rows: &[(&str, usize, &str, &str)],
) -> Result<(), Fail> {
    for (first, calls, last, wanted) in rows {
        assert_eq!(rt; with_calls(alloc, first, *calls, last)?.as_str(), *wanted);
    }
    Ok(())
}

// Labels as far as a branch goes, and one word further; an unknown name behind it comes second.
#[test]
fn branches_far_away(rt: HostRuntime) -> Result<(), Fail> {
    let rows = [
        ("far:\n", 1_024, "beq x0, x0, far\n", "115 .. 2147483747"),
        ("far:\n", 1_025, "beq x0, x0, far\n", "1031 Offset"),
        ("beq x0, x0, far\n", 1_022, "far:\n", "2113933027 .. 115"),
        ("beq x0, x0, far\n", 1_023, "far:\n", "5 Offset"),
        (
            "beq x0, x0, far\n",
            1_023,
            "far:\nbeq x0, x0, off\n",
            "5 Offset",
        ),
        (
            "beq x0, x0, off\n",
            1_025,
            "far:\nbeq x0, x0, far\n",
            "5 UnknownName",
        ),
    ];
    calls_show(&rt, rt.alloc(), &rows)
}

// Labels as far as a jump goes, and one word further.
#[test]
fn jumps_far_away(rt: HostRuntime) -> Result<(), Fail> {
    let rows = [
        ("far:\n", 262_144, "jal x0, far\n", "115 .. 2147483759"),
        ("far:\n", 262_145, "jal x0, far\n", "262151 Offset"),
        ("jal x0, far\n", 262_142, "far:\n", "2145382511 .. 115"),
        ("jal x0, far\n", 262_143, "far:\n", "5 Offset"),
    ];
    calls_show(&rt, rt.alloc(), &rows)
}

// One word more than the most that an image has.
#[test]
fn too_many_words(rt: HostRuntime) -> Result<(), Fail> {
    let fault = with_calls(rt.alloc(), "", 16_777_211, "far:\n")?;
    assert_eq!(rt; fault.as_str(), "16777215 TooMany");
    Ok(())
}

const LINES: &str = ".image 1
.stride 32
.params 2
.results 1
lui x5, 524288
addi x6, x0, -1
mul x10, x11, x20
srai x7, x6, 4
lw x5, 12(x10)
sw x13, 0(x6)
beq x10, x0, -12
jal x0, -176
jalr x1, 248(x0)
fence x0, x0, 255
ecall
ebreak
.word 0
.word 4294967295
auipc x5, 1
";

// Words and lines of an assembler.
#[test]
fn the_text_of_an_image(rt: HostRuntime) -> Result<(), Fail> {
    let words = [
        0x8000_02b7,
        0xfff0_0313,
        0x0345_8533,
        0x4043_5393,
        0x00c5_2283,
        0x00d3_2023,
        0xfe05_0ae3,
        0xf51f_f06f,
        0x0f80_00e7,
        0x0ff0_000f,
        0x0000_0073,
        0x0010_0073,
        0x0000_0000,
        0xffff_ffff,
        0x0000_1297,
    ];
    let image = Image::of(32, 2, 1, words.to_vec(rt.alloc())?);
    let text = print_asm(rt.alloc(), &image).map_err(|_| "no memory")?;
    assert_eq!(rt; text.as_slice(), LINES.as_bytes());
    Ok(())
}

// The file of the least image.
#[test]
fn the_file_of_a_text(rt: HostRuntime) -> Result<(), Fail> {
    let text = b".image 1\n.stride 32\n.params 0\n.results 0\nebreak\n";
    let image = assemble(rt.alloc(), text).map_err(|_| "no image")?;
    let file = write_image(rt.alloc(), &image).map_err(|_| "no memory")?;
    let wanted = [
        0x54, 0x41, 0x4d, 0x49, 1, 0, 0, 0, 1, 0, 0, 0, 0x20, 0, 0, 0, 0, 0, 0, 0, 0, 0, 0, 0,
        0x73, 0, 0x10, 0,
    ];
    assert_eq!(rt; file.as_slice(), wanted.as_slice());
    Ok(())
}
