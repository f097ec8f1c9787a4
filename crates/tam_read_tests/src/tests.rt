// The first fault of texts that were worked by hand.
use std::alloc::Global;
use std::process::Abort;
use std::test::Fail;
use tam_graph::{Kind, Place};
use tam_read::{Refused, read};

fn shown(alloc: Global, text: &[u8]) -> Result<String, Fail> {
    if text.len() > 1_048_576 {
        return Ok(format!(in alloc; "too long")?);
    }
    Ok(match read(alloc, text) {
        Err(Refused::At { line, cause }) => format!(in alloc; "{} {:?}", line, cause)?,
        Err(Refused::NoMemory) => format!(in alloc; "no memory")?,
        Ok(_) => format!(in alloc; "none")?,
    })
}

// A row on each line: what is shown, a bar, and the text, where a slash stands for the end of a line.
const TEXTS: &str = "1 BadHead|
3 BadHead|# note//
1 BadHead|dg 2/
none|/ dg\t1 # head\r/
1 BadByte|\x01dg 2/
2 BadLine|dg 1/code/
2 BadName|dg 1/code 9/
2 BadNesting|dg 1/x = const 1/
4 TwiceNamed|dg 1/code a/end/code a/end/
none|dg 1/code a/end/code b/x = call a/end
3 Ended|dg 1/code a/
2 Ended|dg 1/code a
4 Ended|dg 1/code a/x = add y y/";

// Lines of `main`, which begin at line 3: each cause at a first and at a later line, and the earlier of two.
const LINES: &str = "3 BadLine|x = add a/end/
4 BadLine|x = const 1/x/end/
3 BadLine|9x = add a/end/
3 BadName|9x = const 1/end/
4 BadName|x = const 1/n:0 = const 1/end/
3 BadName|A:4 = alloc x/end/
3 BadName|f:1 = call main/end/
3 BadName|c:1 = cond p/end/
3 BadName|9x = const 4294967296/end/
3 BadNumber|x = const 4294967296/end/
3 BadNumber|x = param 64/end/
3 BadNumber|x = const -2147483649/end/
3 BadNumber|x = const 00/end/
3 BadNumber|x = const 0x123456789/end/
4 BadNumber|end/x = param 64/
3 BadNesting|else/end/
4 BadNesting|end/end/
3 BadNesting|code g/end/
5 BadNesting|p = const 1/c = cond p/end/
6 BadNesting|p = const 1/c = cond p/else/else/
4 BadNesting|end/x = const 1/x = const 1/
4 TwiceNamed|x = const 1/x = const 2/end/
5 TwiceNamed|p = const 1/c = cond p/p:1 = in 0/else/end/end/
4 TwiceNamed|x = const 1/x = add y y/end/
3 UnknownName|result 0 y/end/
4 UnknownCode|x = const 1/f = call g/result 0 y/end/
3 UnknownName|result 0 y/f = call g/end/
4 UnknownName|f = call main/result 0 f/end/
4 UnknownName|x = const 1/arg x 0 x/end/
4 UnknownName|x = const 1/switch x 0 x/end/
8 UnknownName|end/code g/x = const 1/end/code h/result 0 x/end/
none|result 0 y/y = const 1/end/
none|x = const 0xFFffFFff/y = const -0 # note\r/end/
none|n = const 0/A:3 = alloc n/end/
none|p = const 1/c = cond p/result 0 p/else/end/end/";

// Texts that begin with the head, with what is shown of them.
fn rows_show(rt: &impl Abort, alloc: Global, head: &str, rows: &str) -> Result<(), Fail> {
    for row in rows.lines() {
        let (wanted, lines) = row.split_once('|').ok_or("a row")?;
        let mut text = String::from_str(alloc, head)?;
        for letter in lines.chars() {
            text.push(if letter == '/' { '\n' } else { letter })?;
        }
        assert_eq!(rt;
            shown(alloc, text.as_bytes())?.as_str(),
            wanted,
            "of {lines}"
        );
    }
    Ok(())
}

// Whole texts: the faults of the head, of bytes, of places in the file.
#[test]
fn texts(rt: HostRuntime) -> Result<(), Fail> {
    rows_show(&rt, rt.alloc(), "", TEXTS)?;
    assert_eq!(rt; shown(rt.alloc(), b"dg 1\n# \xc8\n")?.as_str(), "2 BadByte");
    assert_eq!(rt; shown(rt.alloc(), b"dg 1\r")?.as_str(), "1 BadByte");
    Ok(())
}

#[test]
fn lines_of_main(rt: HostRuntime) -> Result<(), Fail> {
    rows_show(&rt, rt.alloc(), "dg 1\ncode main\n", LINES)
}

// Lines of `main`, each as often as it says.
fn repeated(alloc: Global, lines: &[(&str, usize)]) -> Result<String, Fail> {
    let mut text = String::from_str(alloc, "dg 1\ncode main\n")?;
    for (line, count) in lines {
        for _ in 0..*count {
            text.push_str(line)?;
            text.push('\n')?;
        }
    }
    Ok(text)
}

#[test]
fn vertices_of_a_block(rt: HostRuntime) -> Result<(), Fail> {
    let rows = [
        (128, 0, "131 BadNumber"),
        (129, 0, "131 TooMany(BlockVertices)"),
        (126, 1, "130 BadNumber"),
        (127, 1, "130 TooMany(BlockVertices)"),
    ];
    for (outs, calls, wanted) in &rows {
        let text = repeated(
            rt.alloc(),
            &[
                ("out 0 x", *outs),
                ("f = call g", *calls),
                ("x = param 64", 1),
            ],
        )?;
        assert_eq!(rt; shown(rt.alloc(), text.as_bytes())?.as_str(), *wanted);
    }
    Ok(())
}

// Worked by hand: the then block opens at the `cond` line and the else block at its `else`, so the inner cond's blocks come between.
#[test]
fn nodes_blocks_and_lines(rt: HostRuntime) -> Result<(), Fail> {
    let text =
        b"# nested\n\ndg 1\ncode g\nresult 0 z\nz = param 0\nend\ncode main\np = const 1\nc = cond p\n\
        d = cond q\nelse\nend\nq:2 = in 0\nelse\nout 3 e\ne = const -1\nend\nf = call g\nend";
    let found = read(rt.alloc(), text).ok().ok_or("no fault")?;
    assert_eq!(rt; found.graph.codes(), 2);
    assert_eq!(rt; found.graph.main(), 1);
    let code = found.graph.code(1);
    let owners = [None, Some(1), Some(2), Some(2), Some(1)];
    assert_eq!(rt; code.owners(), owners.as_slice());
    let rows = [
        (0, Kind::Const { word: 1 }, 9),
        (
            0,
            Kind::Cond {
                test: 0,
                yes: 1,
                no: 4,
            },
            10,
        ),
        (
            1,
            Kind::Cond {
                test: 3,
                yes: 2,
                no: 3,
            },
            11,
        ),
        (1, Kind::Enter { place: 0 }, 14),
        (4, Kind::Leave { place: 3, a: 5 }, 16),
        (4, Kind::Const { word: 0xffff_ffff }, 17),
        (0, Kind::Call { callee: 0 }, 19),
    ];
    assert_eq!(rt; code.nodes().len(), rows.len());
    for (x, (block, kind, line)) in rows.iter().enumerate() {
        assert_eq!(rt; code.nodes()[x].block, *block);
        assert_eq!(rt; code.nodes()[x].kind, *kind);
        let node = x as u32;
        assert_eq!(rt; found.lines.line(Place::Node { code: 1, node }), *line);
    }
    assert_eq!(rt; code.nodes()[3].depth, 2);
    assert_eq!(rt; found.lines.line(Place::File), 1);
    assert_eq!(rt; found.lines.line(Place::Code { code: 0 }), 4);
    assert_eq!(rt; found.lines.line(Place::Node { code: 0, node: 0 }), 5);
    Ok(())
}
