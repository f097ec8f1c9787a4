// Words and the instructions that they are, and the fields of instructions.
use rv_inst::{
    Bits12, BranchName, IName, Imm12, Imm20, Inst, Off13, Off21, RName, Reg, decode, encode,
};
use std::test::Fail;

fn reg(n: i32) -> Result<Reg, Fail> {
    Ok(Reg::of(n).ok_or("a register")?)
}

fn imm(n: i32) -> Result<Imm12, Fail> {
    Ok(Imm12::of(n).ok_or("an immediate")?)
}

fn branch(name: BranchName, rs1: i32, off: i32) -> Result<Inst, Fail> {
    let off = Off13::of(off).ok_or("an offset")?;
    Ok(Inst::Branch {
        name,
        rs1: reg(rs1)?,
        rs2: reg(0)?,
        off,
    })
}

fn jump(off: i32) -> Result<Inst, Fail> {
    let off = Off21::of(off).ok_or("an offset")?;
    Ok(Inst::Jal { rd: reg(0)?, off })
}

// Words from the assembler of GNU binutils.
#[test]
fn words_of_an_assembler(rt: HostRuntime) -> Result<(), Fail> {
    let addi = |rd, n| -> Result<Inst, Fail> {
        Ok(Inst::I {
            name: IName::Addi,
            rd: reg(rd)?,
            rs1: reg(0)?,
            imm: imm(n)?,
        })
    };
    let cases = [
        (0x0000_0073, Inst::Ecall),
        (0x0010_0073, Inst::Ebreak),
        (0x0000_0013, addi(0, 0)?),
        (0x0050_0093, addi(1, 5)?),
        (
            0x0345_8533,
            Inst::R {
                name: RName::Mul,
                rd: reg(10)?,
                rs1: reg(11)?,
                rs2: reg(20)?,
            },
        ),
        (0x0002_9463, branch(BranchName::Bne, 5, 8)?),
        (0xfe05_0ae3, branch(BranchName::Beq, 10, -12)?),
        (0x0000_00e3, branch(BranchName::Beq, 0, 2048)?),
        (0x0300_006f, jump(48)?),
        (0xf51f_f06f, jump(-176)?),
        (0x0010_006f, jump(2048)?),
        (
            0x0f80_00e7,
            Inst::Jalr {
                rd: reg(1)?,
                rs1: reg(0)?,
                imm: imm(248)?,
            },
        ),
    ];
    for (word, inst) in cases {
        assert_eq!(rt; encode(&inst), word, "at {inst:?}");
        assert_eq!(rt; decode(word), Some(inst), "at {word:#010x}");
    }
    for word in [
        0,
        0xffff_ffff,
        0x0400_0033,
        0x0000_1067,
        0x0020_0073,
        0x4000_1013,
    ] {
        assert_eq!(rt; decode(word), None, "at {word:#010x}");
    }
    Ok(())
}

// The edges of the fields' ranges.
#[test]
fn fields_keep_their_ranges(rt: HostRuntime) {
    assert_eq!(rt; Reg::of(31).map(|r| r.get()), Some(31));
    assert_eq!(rt; Reg::of(32), None);
    assert_eq!(rt; Imm12::of(-2048).map(|i| i.get()), Some(-2048));
    assert_eq!(rt; Imm12::of(2048), None);
    assert_eq!(rt; Off13::of(4094).map(|i| i.get()), Some(4094));
    assert_eq!(rt; Off13::of(4095), None);
    assert_eq!(rt; Off21::of(-1_048_576).map(|i| i.get()), Some(-1_048_576));
    assert_eq!(rt; Off21::of(-1_048_578), None);
    assert_eq!(rt; Imm20::of(1_048_576), None);
    assert_eq!(rt; Bits12::of(-1), None);
}
