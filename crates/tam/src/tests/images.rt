// Runs of graphs instruction by instruction, the listings of machine code, runs of images, and the machine that they hand out.
use crate::tests::{ADD, Case, EMPTY, call, check_all};
use std::process::Abort;
use std::test::Fail;

// Behind the head of an image without params and results, instructions as text; what their run writes, and how many steps it makes.
#[derive(Drop)]
struct Code {
    instructions: &'static [u8],
    taken: &'static [u8],
    steps: u64,
}

#[test]
fn machine_code_of_graphs_runs(rt: HostRuntime) -> Result<(), Fail> {
    let cases = [
        Case {
            words: &["rv32", "f", "--args=2,3"],
            file: ADD,
            taken: b"result 0 = 5\nquiet\nevents 5\nactivations 1\ncells 0\ninstructions 219\n",
            status: 0,
            steps: Some(219),
        },
        Case {
            words: &["rv32", "f"],
            file: EMPTY,
            taken: b"quiet\nevents 1\nactivations 1\ncells 0\ninstructions 92\n",
            status: 0,
            steps: Some(92),
        },
        Case {
            words: &["rv32", "f", "--args=2"],
            file: ADD,
            taken: b"usage ArgsCount\n",
            status: 2,
            steps: None,
        },
    ];
    check_all(&rt, &cases)
}

// The image of a graph is written as a file and as assembly text, which assembles to the same file; and the run of the file is that of the graph.
#[test]
fn written_machine_code_runs(rt: HostRuntime) -> Result<(), Fail> {
    let image = call(&rt, &["emit-image", "f"], ADD, &[])?;
    assert_eq!(rt; image.status, 0);
    let text = call(&rt, &["emit-asm", "f"], ADD, &[])?;
    assert_eq!(rt; text.status, 0);
    let assembled = call(&rt, &["assemble", "f"], &text.taken, &[])?;
    assert_eq!(rt; assembled.taken.as_slice(), image.taken.as_slice());
    let direct = call(&rt, &["rv32", "f", "--args=2,3"], ADD, &[])?;
    let read = call(&rt, &["exec-rv32", "f", "--args=2,3"], &image.taken, &[])?;
    assert_eq!(rt; read.taken.as_slice(), direct.taken.as_slice());
    assert_eq!(rt; read.status, direct.status);
    assert_eq!(rt; read.steps, direct.steps);
    let wrong = call(&rt, &["exec-rv32", "f", "--args=2"], &image.taken, &[])?;
    assert_eq!(rt; wrong.taken.as_slice(), b"usage ArgsCount\n".as_slice());
    assert_eq!(rt; wrong.status, 2);
    Ok(())
}

#[test]
fn each_wild_run_of_an_image_is_told(rt: HostRuntime) -> Result<(), Fail> {
    let codes = [
        Code {
            instructions: b"addi x17, x0, 9\necall\n",
            taken: b"wild ecall 9\nevents 0\nactivations 1\ncells 0\ninstructions 2\n",
            steps: 2,
        },
        // A frame that isn't live is given back.
        Code {
            instructions: b"addi x17, x0, 6\naddi x10, x0, 5\necall\n",
            taken: b"wild frame 5\nevents 0\nactivations 1\ncells 0\ninstructions 3\n",
            steps: 3,
        },
        // A word is sent to it, and delivered at the first poll.
        Code {
            instructions: b"addi x17, x0, 1\naddi x10, x0, 5\necall\naddi x17, x0, 0\naddi x10, x0, 0\necall\n",
            taken: b"wild frame 5\nevents 1\nactivations 1\ncells 0\ninstructions 6\n",
            steps: 6,
        },
        // A cell of an array that isn't there is asked for.
        Code {
            instructions: b"addi x17, x0, 4\naddi x10, x0, 3\necall\naddi x17, x0, 0\naddi x10, x0, 0\necall\n",
            taken: b"wild array 3\nevents 1\nactivations 1\ncells 0\ninstructions 6\n",
            steps: 6,
        },
        // A result is sent outside where there is none.
        Code {
            instructions: b"addi x17, x0, 1\naddi x10, x0, -1\naddi x11, x0, 2\necall\naddi x17, x0, 0\naddi x10, x0, 0\necall\n",
            taken: b"wild result 2\nevents 1\nactivations 1\ncells 0\ninstructions 7\n",
            steps: 7,
        },
    ];
    check_codes(&rt, &codes)
}

#[test]
fn each_trap_is_told(rt: HostRuntime) -> Result<(), Fail> {
    let codes = [
        Code {
            instructions: b"ebreak\n",
            taken: b"trap 0 Break\nevents 0\nactivations 1\ncells 0\ninstructions 0\n",
            steps: 0,
        },
        Code {
            instructions: b"addi x5, x0, 1\n.word 0\n",
            taken: b"trap 4 Unknown\nevents 0\nactivations 1\ncells 0\ninstructions 1\n",
            steps: 1,
        },
        Code {
            instructions: b"lui x5, 524288\njalr x0, 0(x5)\n",
            taken: b"trap 2147483648 FetchAddress\nevents 0\nactivations 1\ncells 0\ninstructions 2\n",
            steps: 2,
        },
        Code {
            instructions: b"jalr x0, 2(x0)\n",
            taken: b"trap 0 JumpAlign\nevents 0\nactivations 1\ncells 0\ninstructions 0\n",
            steps: 0,
        },
        Code {
            instructions: b"lw x5, 2(x0)\n",
            taken: b"trap 0 LoadAlign\nevents 0\nactivations 1\ncells 0\ninstructions 0\n",
            steps: 0,
        },
        Code {
            instructions: b"sh x5, 1(x0)\n",
            taken: b"trap 0 StoreAlign\nevents 0\nactivations 1\ncells 0\ninstructions 0\n",
            steps: 0,
        },
        Code {
            instructions: b"lui x5, 524288\nlw x6, 0(x5)\n",
            taken: b"trap 4 LoadAddress\nevents 0\nactivations 1\ncells 0\ninstructions 1\n",
            steps: 1,
        },
        Code {
            instructions: b"lui x5, 524288\nsb x6, 0(x5)\n",
            taken: b"trap 4 StoreAddress\nevents 0\nactivations 1\ncells 0\ninstructions 1\n",
            steps: 1,
        },
    ];
    check_codes(&rt, &codes)
}

// Assembles each code, runs its image, and compares what came of it.
fn check_codes<R: Abort + AllocGlobal>(rt: &R, codes: &[Code]) -> Result<(), Fail> {
    for code in codes {
        let mut text = Vec::from_slice(
            rt.alloc(),
            b".image 1\n.stride 32\n.params 0\n.results 0\n",
        )?;
        text.extend_from_slice(code.instructions)?;
        let image = call(rt, &["assemble", "f"], &text, &[])?;
        assert_eq!(rt; image.status, 0);
        let came = call(rt, &["exec-rv32", "f"], &image.taken, &[])?;
        assert_eq!(rt; came.taken.as_slice(), code.taken);
        assert_eq!(rt; came.status, 12);
        assert_eq!(rt; came.steps, Some(code.steps));
    }
    Ok(())
}
