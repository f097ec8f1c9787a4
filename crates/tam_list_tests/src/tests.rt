// Listings of small graphs, worked by hand.
use std::alloc::Global;
use std::test::Fail;
use tam_check::check;
use tam_graph::Accepted;
use tam_list::{print_check, print_parts, print_sets};
use tam_read::read;

const FED_BY_ITSELF: &str = "dg 1
code main
n = const 1
A:1 = alloc n
a = fetch A b
b = add a a
result 0 a
end
";

const FED_BACK: &str = "dg 1
code main
x = param 0
f = call g
arg f 0 x
y = ret f 0
arg f 1 y
z = ret f 1
result 0 z
end
code g
a = param 0
b = param 1
one = const 1
c = add a one
d = add b c
result 0 c
result 1 d
end
";

// The accepted graph that the text spells.
fn accepted(alloc: Global, text: &str) -> Result<Accepted, Fail> {
    if text.len() > 1_048_576 {
        return Err(Fail::from("too long"));
    }
    let found = read(alloc, text.as_bytes())?;
    Ok(check(alloc, found.graph).map_err(|(_, error)| error)?)
}

#[test]
fn vertices_and_not_nodes_are_counted(rt: HostRuntime) -> Result<(), Fail> {
    let graph = accepted(rt.alloc(), FED_BY_ITSELF)?;
    let text = print_check(rt.alloc(), &graph).map_err(|_| "no memory")?;
    let wanted: &[u8] = b"accepted\ncodes 1\nblocks 1\nvertices 7\n";
    assert_eq!(rt; text.as_slice(), wanted);
    Ok(())
}

#[test]
fn all_codes_are_counted(rt: HostRuntime) -> Result<(), Fail> {
    let graph = accepted(rt.alloc(), FED_BACK)?;
    let text = print_check(rt.alloc(), &graph).map_err(|_| "no memory")?;
    let wanted: &[u8] = b"accepted\ncodes 2\nblocks 2\nvertices 15\n";
    assert_eq!(rt; text.as_slice(), wanted);
    Ok(())
}

#[test]
fn sets_of_two_codes(rt: HostRuntime) -> Result<(), Fail> {
    let graph = accepted(rt.alloc(), FED_BACK)?;
    let text = print_sets(rt.alloc(), &graph).map_err(|_| "no memory")?;
    let wanted: &[u8] =
        b"code 0 main\nblock 0\nvertex 0 dep 0 dem 2\nvertex 1a dep - dem 1a\nvertex 1b dep 1b dem 2,4\nvertex 2 dep 0,1b dem 2\n\
          vertex 3 dep 3 dem 4\nvertex 4 dep 1b,3 dem 4\nvertex 5 dep 5 dem 6\nvertex 6 dep 5 dem 6\ncode 1 g\nblock 0\n\
          vertex 0 dep 0 dem 5,6\nvertex 1 dep 1 dem 6\nvertex 2 dep - dem 5,6\nvertex 3 dep 0 dem 5,6\nvertex 4 dep 0,1 dem 6\n\
          vertex 5 dep 0 dem 5\nvertex 6 dep 0,1 dem 6\n";
    assert_eq!(rt; text.as_slice(), wanted);
    Ok(())
}

#[test]
fn classes_of_two_codes(rt: HostRuntime) -> Result<(), Fail> {
    let graph = accepted(rt.alloc(), FED_BACK)?;
    let text = print_parts(rt.alloc(), &graph).map_err(|_| "no memory")?;
    let wanted: &[u8] =
        b"code 0 main\nblock 0\nthread 0 2\nthread 1a\nthread 1b\nthread 3 4\nthread 5 6\ncode 1 g\nblock 0\nthread 0 2 3 5\nthread 1 4 6\n";
    assert_eq!(rt; text.as_slice(), wanted);
    Ok(())
}
