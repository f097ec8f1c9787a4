// Programs worked by hand, with what the machine is then.
use rv_image::Image;
use rv_machine::{Rv, RvStep, TrapCause};
use std::alloc::Global;
use std::test::Fail;

// The machine at these words, with one frame of 32 bytes.
fn machine(alloc: Global, words: &[u32]) -> Result<Rv, Fail> {
    if words.is_empty() || words.len() > 100 {
        return Err(Fail::from("an image"));
    }
    let image = Image::of(32, 0, 0, words.to_vec(alloc)?);
    Ok(Rv::new(alloc, &image, 1).map_err(|_| "no memory")?)
}

// Programs worked by hand: so many steps, and the registers then. The divisions at the edges are those of the manual's table
// "Semantics for division by zero and division overflow".
#[test]
fn programs_leave_their_registers(rt: HostRuntime) -> Result<(), Fail> {
    let cases: [(&[u32], &[(u32, u32)]); 4] = [
        // lui x5, 524288; addi x6, x0, -1; div x7, x5, x6; rem x8, x5, x6; div x9, x5, x0; rem x10, x5, x0
        (
            &[
                0x8000_02b7,
                0xfff0_0313,
                0x0262_c3b3,
                0x0262_e433,
                0x0202_c4b3,
                0x0202_e533,
            ],
            &[
                (7, 0x8000_0000),
                (8, 0),
                (9, 0xffff_ffff),
                (10, 0x8000_0000),
            ],
        ),
        // lui x5, 524288; addi x6, x0, -1; mulh x7, x5, x5; mulhsu x8, x6, x6; mulhu x9, x6, x6
        (
            &[
                0x8000_02b7,
                0xfff0_0313,
                0x0252_93b3,
                0x0263_2433,
                0x0263_34b3,
            ],
            &[(7, 0x4000_0000), (8, 0xffff_ffff), (9, 0xffff_fffe)],
        ),
        // addi x6, x0, -1; sb x6, 33(x0); lb x7, 33(x0); lbu x8, 33(x0); lh x9, 32(x0); lhu x10, 32(x0); lw x11, 32(x0)
        (
            &[
                0xfff0_0313,
                0x0260_00a3,
                0x0210_0383,
                0x0210_4403,
                0x0200_1483,
                0x0200_5503,
                0x0200_2583,
            ],
            &[
                (7, 0xffff_ffff),
                (8, 0xff),
                (9, 0xffff_ff00),
                (10, 0xff00),
                (11, 0xff00),
            ],
        ),
        // addi x0, x0, -1; sltiu x7, x0, -1; slti x8, x0, -1; auipc x5, 1
        (
            &[0xfff0_0013, 0xfff0_3393, 0xfff0_2413, 0x0000_1297],
            &[(0, 0), (7, 1), (8, 0), (5, 0x100c)],
        ),
    ];
    for (words, registers) in cases {
        let mut rv = machine(rt.alloc(), words)?;
        for _ in words {
            assert_eq!(rt; rv.step(), RvStep::Done, "in {words:?}");
        }
        for (r, word) in registers {
            assert!(rt; *r < 32);
            assert_eq!(rt; rv.reg(*r), *word, "x{r} of {words:?}");
        }
        assert_eq!(rt; rv.steps(), words.len() as u64);
    }
    Ok(())
}

// The divisions at the edges, and `ebreak` behind them.
#[test]
fn a_break_tells_where_it_stands(rt: HostRuntime) -> Result<(), Fail> {
    let words = [
        0x8000_02b7,
        0xfff0_0313,
        0x0262_c3b3,
        0x0262_e433,
        0x0202_c4b3,
        0x0202_e533,
        0x0010_0073,
    ];
    let mut rv = machine(rt.alloc(), &words)?;
    for _ in 0..6 {
        assert_eq!(rt; rv.step(), RvStep::Done);
    }
    let end = RvStep::Trap {
        pc: 24,
        cause: TrapCause::Break,
    };
    assert_eq!(rt; rv.step(), end);
    assert_eq!(rt; (rv.pc(), rv.steps()), (24, 6));
    Ok(())
}

// Each alone at address 0, in a memory of 36 bytes.
#[test]
fn a_trap_changes_nothing(rt: HostRuntime) -> Result<(), Fail> {
    let cases = [
        (0x0020_00ef, TrapCause::JumpAlign),
        (0x0020_2083, TrapCause::LoadAlign),
        (0x0000_2123, TrapCause::StoreAlign),
        (0xffc0_2083, TrapCause::LoadAddress),
        (0xfe00_0fa3, TrapCause::StoreAddress),
        (0x0000_0000, TrapCause::Unknown),
        (0x0010_0073, TrapCause::Break),
    ];
    for (word, cause) in cases {
        let mut rv = machine(rt.alloc(), &[word])?;
        assert_eq!(rt; rv.step(), RvStep::Trap { pc: 0, cause }, "at {word:#010x}");
        assert_eq!(rt;
            (rv.pc(), rv.steps(), rv.reg(1)),
            (0, 0, 0),
            "at {word:#010x}"
        );
    }
    Ok(())
}

// addi x1, x0, 8; jalr x1, 5(x1); then at 12 a call, and a jump far away
#[test]
fn jumps_and_calls(rt: HostRuntime) -> Result<(), Fail> {
    let words = [
        0x0080_0093,
        0x0050_80e7,
        0x0010_0073,
        0x0000_0073,
        0x7fdf_f0ef,
    ];
    let mut rv = machine(rt.alloc(), &words)?;
    assert_eq!(rt; rv.step(), RvStep::Done);
    assert_eq!(rt; rv.step(), RvStep::Done);
    assert_eq!(rt; (rv.pc(), rv.reg(1)), (12, 8));
    assert_eq!(rt; rv.step(), RvStep::Ecall);
    rv.set_reg(10, 7);
    rv.set_reg(0, 7);
    assert_eq!(rt; (rv.pc(), rv.reg(10), rv.reg(0)), (16, 7, 0));
    assert_eq!(rt; rv.step(), RvStep::Done);
    let far = RvStep::Trap {
        pc: 0x10_000c,
        cause: TrapCause::FetchAddress,
    };
    assert_eq!(rt; rv.step(), far);
    Ok(())
}

// addi x5, x5, 1; a store of x6 into that word; jal x0, -8; and what then stands at address 0: addi x5, x5, 5 or 17, or no instruction
#[test]
fn a_store_into_code_changes_it(rt: HostRuntime) -> Result<(), Fail> {
    let cases = [
        (0x0060_2023, 0x0052_8293, RvStep::Done, 6),
        (0x0060_1123, 0x52, RvStep::Done, 6),
        (0x0060_01a3, 1, RvStep::Done, 18),
        (
            0x0060_2023,
            0,
            RvStep::Trap {
                pc: 0,
                cause: TrapCause::Unknown,
            },
            1,
        ),
    ];
    for (store, word, end, sum) in cases {
        let mut rv = machine(rt.alloc(), &[0x0012_8293, store, 0xff9f_f06f])?;
        rv.set_reg(6, word);
        for _ in 0..3 {
            assert_eq!(rt; rv.step(), RvStep::Done, "at {store:#010x}");
        }
        assert_eq!(rt; (rv.pc(), rv.reg(5)), (0, 1), "at {store:#010x}");
        assert_eq!(rt; rv.step(), end, "at {store:#010x}");
        assert_eq!(rt; rv.reg(5), sum, "at {store:#010x}");
    }
    Ok(())
}
