// Words and what they ask for, each worked by hand from the rule in the first lines of `tam_words`.
//
// A table is one text with a row on each line: what is wanted, a colon, and the words, of which `''` is the empty one.
use std::alloc::{AllocError, Global};
use std::test::Fail;
use tam_make::Shape;
use tam_msgs::Choice;
use tam_words::{Job, UsageCause, WordsError, read_words, shape_name};

fn words_of(alloc: Global, words: &str) -> Result<Vec<String>, AllocError> {
    let mut texts = Vec::new(alloc);
    for word in words.split_whitespace() {
        let word = if word == "''" { "" } else { word };
        texts.push(String::from_str(alloc, word)?)?;
    }
    Ok(texts)
}

// The cause by its name, where the words are refused.
fn cause_of(alloc: Global, words: &str) -> Result<&'static [u8], Fail> {
    let texts = words_of(alloc, words)?;
    Ok(match read_words(alloc, &texts) {
        Err(WordsError::Usage(cause)) => cause.name(),
        _ => b"no cause",
    })
}

fn job_of(alloc: Global, words: &str) -> Result<Job, Fail> {
    let texts = words_of(alloc, words)?;
    Ok(read_words(alloc, &texts)?)
}

// The mode, the name, the arguments, the shape and the count of a job.
fn shown(alloc: Global, words: &str) -> Result<String, Fail> {
    let job = job_of(alloc, words)?;
    let (mode, name, args) = (job.mode(), job.name(), job.args());
    let (shape, count) = (job.shape(), job.count());
    Ok(format!(in alloc; "{mode:?} {name:?} {args:?} {shape:?} {count}")?)
}

// The order file and the limits of a job.
fn shown_limits(alloc: Global, words: &str) -> Result<String, Fail> {
    let job = job_of(alloc, words)?;
    let (file, limits) = (job.order_file(), job.limits());
    Ok(format!(in alloc;
        "{file:?} {} {} {}",
        limits.budget, limits.frames, limits.cells
    )?)
}

const WRONG_WORDS: &str = "Words:
Words: graph
Words: help
Words: --help
Words: graph f --help
Words: -h graph f
Words: --version
Words: graph f -V
Words: graph -f
Words: -fly f
Words: graph f 1 2
Words: make ladder 1 1
Words: graph -- -f --args=1 x
Words: graph f --arg=1
Words: graph f --args
Words: graph f --args -2,3
Words: graph f --args -- 1
Words: --args graph f
Words: graph f --cells=1 --args=1 --cells=1
Words: graph --args= f --args 1
Words: fly f --orders=
Mode: '' f
Mode: - f
Mode: -- --args=1 f
Mode: grap f
Mode: Graph f
Mode: nodes f
Mode: eq f
Mode: emit-eq f
Mode: fly f 1 --args=x
Extra: check f --args=1
Extra: check f --args=
Extra: emit-tl0 f --frames=1
Extra: emit-asm f --budget 1
Extra: emit-image --cells=1 f
Extra: graph f 2
Extra: assemble f -
Extra: rv32 f ''
Extra: exec-rv32 f -- --args=1
Extra: graph f --order=x --args=x --order-file=
Extra: make ring 1 --cells=1
Extra: make ladder 201 --args=
Shape: make ring 1
Shape: make ladders
Shape: make ''
Count: make ladder
Count: make ladder 0
Count: make ladder 201
Count: make wave 61
Count: make wave 01
Count: make wave 0x1
Count: make wave ''
Args: exec-tl0 f --args=1,
Args: graph f --order=x --args=,
Args: graph f --args=4294967296
Args: --args graph graph f
Args: --args - graph f
Order: graph f --order=r,x
Order: graph f --budget= --order=r;
Budget: graph f --frames=0 --budget=4294967296
Budget: graph f --budget=-0
Budget: graph f --budget ''
Frames: tl0 f --frames=0
Frames: graph f --cells= --frames=0
Frames: rv32 f --frames=16385
Frames: graph f --frames=01
Cells: graph f --cells=4194305
Cells: exec-rv32 f --cells=0x1
Cells: graph f --order-file= --cells=+1";

#[test]
fn wrong_words_have_their_cause(rt: HostRuntime) -> Result<(), Fail> {
    for row in WRONG_WORDS.lines() {
        let (cause, words) = row.split_once(':').ok_or("a row")?;
        assert_eq!(rt;
            cause_of(rt.alloc(), words)?,
            cause.as_bytes(),
            "at {words}"
        );
    }
    Ok(())
}

// Options may stand anywhere, a value behind `=` or as the next word. A bare `-` is a value, and behind `--` each word is.
const OPTIONS: &str = r#"Graph "a.dg" [2, 3] None 0: --args 2,3 graph a.dg
Graph "a.dg" [2, 3] None 0: graph --args=2,3 a.dg
Graph "a.dg" [4294967294, 255] None 0: graph a.dg --args=-2,0xFF
Graph "-f" [1] None 0: --args=1 -- graph -f
Graph "--args=2" [1] None 0: graph --args 1 -- --args=2
Graph "-" [] None 0: graph -
Graph "" [] None 0: graph ''
Graph "f" [] None 0: graph f --args=
Graph "f" [] None 0: graph f --args '' --order=
Graph "a-b=c" [] None 0: graph a-b=c
Graph "f" [] None 0: graph f
Tl0 "f" [] None 0: tl0 f
Rv32 "f" [] None 0: rv32 f
Check "f" [] None 0: check f
EmitDg "f" [] None 0: emit-dg f
Sets "f" [] None 0: sets f
Parts "f" [] None 0: parts f
EmitTl0 "f" [] None 0: emit-tl0 f
EmitAsm "f" [] None 0: emit-asm f
EmitImage "f" [] None 0: emit-image f
Assemble "f" [] None 0: assemble f
ExecTl0 "f" [] None 0: exec-tl0 f
ExecRv32 "f" [] None 0: exec-rv32 f
Make "ladder" [] Some(Ladder) 1: make ladder 1
Make "ladder" [] Some(Ladder) 200: make ladder 200
Make "wave" [] Some(Wave) 1: make wave 1
Make "wave" [] Some(Wave) 60: make wave 60"#;

#[test]
fn words_match_the_command(rt: HostRuntime) -> Result<(), Fail> {
    for row in OPTIONS.lines() {
        let (wanted, words) = row.split_once(':').ok_or("a row")?;
        assert_eq!(rt; shown(rt.alloc(), words)?.as_str(), wanted, "at {words}");
    }
    Ok(())
}

// The order file, and the most calls, frames and cells.
const LIMITS: &str = r#"None 1000000 4096 1048576: graph f
None 0 1 0: graph f --budget=0 --frames=1 --cells=0
None 4294967295 16384 4194304: graph f --cells=4194304 --frames=16384 --budget=4294967295
Some("o") 1000000 4096 1048576: graph f --order-file=o
Some("") 1000000 4096 1048576: graph f --order-file=
Some("-") 1000000 4096 1048576: graph f --order-file=-
Some("-x=--order=r") 1000000 4096 1048576: graph f --order-file=-x=--order=r"#;

#[test]
fn limits_reach_both_ends(rt: HostRuntime) -> Result<(), Fail> {
    for row in LIMITS.lines() {
        let (wanted, words) = row.split_once(':').ok_or("a row")?;
        assert_eq!(rt;
            shown_limits(rt.alloc(), words)?.as_str(),
            wanted,
            "at {words}"
        );
    }
    Ok(())
}

// The error of an order of so many bytes.
fn error_at(alloc: Global, more: u32, end: &str) -> Result<Option<WordsError>, Fail> {
    let mut order = String::from_str(alloc, "--order=r")?;
    for _ in 0..more {
        order.push_str(",r")?;
    }
    order.push_str(end)?;
    let mut words = words_of(alloc, "graph f")?;
    words.push(order)?;
    Ok(read_words(alloc, &words).err())
}

// 1,048,576 bytes, and one more.
#[test]
fn an_order_has_a_greatest_length(rt: HostRuntime) -> Result<(), Fail> {
    let too_long = WordsError::Usage(UsageCause::Order);
    assert_eq!(rt; error_at(rt.alloc(), 524_287, "\n")?, None);
    assert_eq!(rt; error_at(rt.alloc(), 524_288, "")?, Some(too_long));
    Ok(())
}

// An order that isn't there runs first, and what is taken is gone.
#[test]
fn an_order_is_taken(rt: HostRuntime) -> Result<(), Fail> {
    let mut job = job_of(rt.alloc(), "graph f --order=1,r --args=-2,0xFF,7")?;
    assert_eq!(rt; job.args(), [4_294_967_294, 255, 7].as_slice());
    let mut order = job.take_order();
    assert_eq!(rt; order.choose(true, 2), Choice::Deliver(1));
    assert_eq!(rt; order.choose(true, 2), Choice::Run);
    assert_eq!(rt; job.take_order().choose(false, 3), Choice::Deliver(0));
    assert_eq!(rt;
        job_of(rt.alloc(), "graph f")?.take_order().choose(true, 2),
        Choice::Run
    );
    Ok(())
}

// What the program itself tells, and the shapes' words.
#[test]
fn names_are_words(rt: HostRuntime) {
    assert_eq!(rt; UsageCause::ArgsCount.name(), b"ArgsCount".as_slice());
    assert_eq!(rt; shape_name(Shape::Ladder), b"ladder".as_slice());
    assert_eq!(rt; shape_name(Shape::Wave), b"wave".as_slice());
}
