// What a verb says with the tokens behind it.
ghost use Rattle.std.specs.Prelude.{◌≡◌, ◌∷◌, []};
ghost use Rattle.tam_text.specs.Names.{is_name};
ghost use Rattle.rv_asm.specs.InstNames.{verb_called};
ghost use Rattle.rv_asm.specs.Statements.{going, with_none, with_one, with_second, with_third, with_two, with_three, is_comma_token, said_by};
ghost use Rattle.rv_asm.specs.Statements.{label_of, label_in, statement_of};
ghost use Rattle.rv_asm.specs.Statements.{said_if};
ghost use Rattle.std.specs.Option.{option_map};
ghost use Rattle.rv_inst.specs.Instructions.{encoded};
ghost use Rattle.rv_asm.specs.Statements.{Word};
ghost use Rattle.rv_asm.specs.StatementView.{texts, text_of, code_seen, coded, seen_result};

use crate::AsmCause;
use crate::jump::{Jump, inst_by};
use crate::operand_reader::{
    address_of, amount_of, before_last, bits_of, immediate_of, is_text, register_of, signed_of,
    upper_of, word_of,
};
use crate::statement::{Code, Statement};
use crate::verb::{Verb, verb_called};
use rv_inst::{Inst, Reg, encode};
use tam_text::{is_name, is_same};

// An instruction whose word is known.
fn word_of_inst<'t>(inst: &Inst) -> Code<'t>
    ensures value { code_seen result ≡ Word (encoded inst.now) }
{
    Code::Word(encode(inst))
}

// An instruction that goes somewhere: what is no name stands for a number.
fn going<'t>(jump: Jump, target: &'t [u8]) -> Result<Code<'t>, AsmCause>
    ensures value { coded result ≡ going jump target.now }
{
    if !is_text(target) {
        return Err(AsmCause::BadLine);
    }
    if is_name(target) {
        return Ok(Code::Goto(jump, target));
    }
    let Some(off) = signed_of(target) else {
        return Err(AsmCause::BadNumber);
    };
    let Some(inst) = inst_by(jump, off) else {
        return Err(AsmCause::BadNumber);
    };
    Ok(word_of_inst(&inst))
}

// Without operands.
fn with_none<'t>(verb: Verb) -> Result<Code<'t>, AsmCause>
    ensures value { coded result ≡ with_none verb }
{
    match verb {
        Verb::Ecall => Ok(word_of_inst(&Inst::Ecall)),
        Verb::Ebreak => Ok(word_of_inst(&Inst::Ebreak)),
        _ => Err(AsmCause::BadLine),
    }
}

// With one operand.
fn with_one<'t>(verb: Verb, operand: &'t [u8]) -> Result<Code<'t>, AsmCause>
    ensures value { coded result ≡ with_one verb operand.now }
{
    match verb {
        Verb::Word => Ok(Code::Word(word_of(operand)?)),
        _ => Err(AsmCause::BadLine),
    }
}

// With a register, and one operand behind it.
fn with_second<'t>(verb: Verb, first: Reg, operand: &'t [u8]) -> Result<Code<'t>, AsmCause>
    ensures value { coded result ≡ with_second verb first operand.now }
{
    let inst = match verb {
        Verb::Load(name) => {
            let (imm, rs1) = address_of(operand)?;
            Inst::Load {
                name,
                rd: first,
                rs1,
                imm,
            }
        }
        Verb::Store(name) => {
            let (imm, rs1) = address_of(operand)?;
            Inst::Store {
                name,
                rs1,
                rs2: first,
                imm,
            }
        }
        Verb::Jalr => {
            let (imm, rs1) = address_of(operand)?;
            Inst::Jalr {
                rd: first,
                rs1,
                imm,
            }
        }
        Verb::Lui => Inst::Lui {
            rd: first,
            imm: upper_of(operand)?,
        },
        Verb::Auipc => Inst::Auipc {
            rd: first,
            imm: upper_of(operand)?,
        },
        Verb::Jal => return going(Jump::Jal { rd: first }, operand),
        _ => return Err(AsmCause::BadLine),
    };
    Ok(word_of_inst(&inst))
}

// With two registers, and one operand behind them.
fn with_third<'t>(
    verb: Verb,
    first: Reg,
    second: Reg,
    operand: &'t [u8],
) -> Result<Code<'t>, AsmCause>
    ensures value { coded result ≡ with_third verb first second operand.now }
{
    let inst = match verb {
        Verb::Register(name) => Inst::R {
            name,
            rd: first,
            rs1: second,
            rs2: register_of(operand)?,
        },
        Verb::Immediate(name) => Inst::I {
            name,
            rd: first,
            rs1: second,
            imm: immediate_of(operand)?,
        },
        Verb::Shift(name) => Inst::Shift {
            name,
            rd: first,
            rs1: second,
            by: amount_of(operand)?,
        },
        Verb::Branch(name) => {
            let jump = Jump::Branch {
                name,
                rs1: first,
                rs2: second,
            };
            return going(jump, operand);
        }
        Verb::Fence => Inst::Fence {
            rd: first,
            rs1: second,
            bits: bits_of(operand)?,
        },
        _ => return Err(AsmCause::BadLine),
    };
    Ok(word_of_inst(&inst))
}

// With two operands.
fn with_two<'t>(verb: Verb, first: &[u8], second: &'t [u8]) -> Result<Code<'t>, AsmCause>
    ensures value { coded result ≡ with_two verb first.now second.now }
{
    let first = register_of(first)?;
    with_second(verb, first, second)
}

// With three.
fn with_three<'t>(
    verb: Verb,
    first: &[u8],
    second: &[u8],
    third: &'t [u8],
) -> Result<Code<'t>, AsmCause>
    ensures value { coded result ≡ with_three verb first.now second.now third.now }
{
    let first = register_of(first)?;
    let second = register_of(second)?;
    with_third(verb, first, second, third)
}

fn is_comma_token(token: &[u8]) -> bool
    ensures value { result ≡ is_comma_token token.now }
{
    is_same(token, b",")
}

// A verb and the tokens behind it: operands, with commas between them.
fn said_by<'t>(verb: Verb, tokens: &[&'t [u8]]) -> Result<Code<'t>, AsmCause>
    ensures value { coded result ≡ said_by verb (texts tokens.now) }
{
    match tokens {
        [] => with_none(verb),
        [operand] => with_one(verb, operand),
        [first, comma, second] => {
            if !is_comma_token(comma) {
                return Err(AsmCause::BadLine);
            }
            with_two(verb, first, second)
        }
        [first, comma, second, other_comma, third] => {
            if !is_comma_token(comma) {
                return Err(AsmCause::BadLine);
            }
            if !is_comma_token(other_comma) {
                return Err(AsmCause::BadLine);
            }
            with_three(verb, first, second, third)
        }
        [_, _] => Err(AsmCause::BadLine),
        [_, _, _, _] => Err(AsmCause::BadLine),
        [_, _, _, _, _, _, ..] => Err(AsmCause::BadLine),
    }
}

// By the verb that the first token writes.
fn said_if<'t>(token: &[u8], tokens: &[&'t [u8]]) -> Result<Statement<'t>, AsmCause>
    ensures value { seen_result result ≡ said_if (verb_called token.now) (texts tokens.now) }
{
    let Some(verb) = verb_called(token) else {
        return Err(AsmCause::BadLine);
    };
    match said_by(verb, tokens) {
        Ok(code) => Ok(Statement::Code(code)),
        Err(cause) => Err(cause),
    }
}

// The name of a label, where the token is one.
fn label_of(token: &[u8]) -> Option<&[u8]>
    ensures value { option_map text_of result ≡ label_of token.now }
{
    let name = before_last(b':', token)?;
    if is_name(name) { Some(name) } else { None }
}

// The name of a label, where nothing stands behind the token.
fn label_in<'t>(token: &'t [u8], others: &[&[u8]]) -> Option<&'t [u8]>
    ensures value { option_map text_of result ≡ label_in token.now (texts others.now) }
{
    match others {
        [] => label_of(token),
        [_, ..] => None,
    }
}

/// What tokens say, or why they say nothing.
pub fn statement_of<'t>(tokens: &[&'t [u8]]) -> Result<Statement<'t>, AsmCause>
    ensures value { seen_result result ≡ statement_of (texts tokens.now) }
{
    match tokens {
        [] => Err(AsmCause::BadLine),
        [first, others @ ..] => match label_in(first, others) {
            Some(name) => Ok(Statement::Label(name)),
            None => said_if(first, others),
        },
    }
}
