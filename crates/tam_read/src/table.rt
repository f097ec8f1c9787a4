//! Names and what each names.
ghost use Rattle.std.specs.Prelude.{◌≡◌, ◌+◌, ◌<◌, ◌≤◌, ◌^◌, [], length, is_none, IfOk, OnOk};
ghost use Rattle.tam_read.specs.Tables.{table, found, put_in, put_all, is_node, number_behind, node_entries, nodes_from, code_entries, code_behind, codes_from};
ghost use Rattle.tam_read.specs.LineView.{saying, sayings_of};

use crate::form::{Role, Verb, makes};
use crate::line::Line;
use crate::names::name_made;
use crate::pass::is_code;
use indexmap::IndexMap;
use std::alloc::{AllocError, Global};

/// What a name names: as what, and its number.
#[derive(Clone, Copy)]
pub struct Made {
    pub role: Role,
    pub number: u32,
}

/// Names, each with what it names.
#[derive(Drop)]
pub struct Table<'t> {
    pub entries: IndexMap<&'t [u8], Made>,
}

/// What the name names.
pub fn find(names: &Table<'_>, name: &[u8]) -> Option<Made>
    ensures value { result ≡ found name.now (table names.now) }
{
    names.entries.get(&name).copied()
}

// Puts a name in, where it isn't there.
fn put_in<'t>(names: &mut Table<'t>, name: &'t [u8], made: Made) -> Result<(), AllocError>
    ensures ok { OnOk result (table names.new ≡ put_in name.now made (table names.old)) }
{
    if find(names, name).is_none() {
        names.entries.insert(name, made)?;
    }
    Ok(())
}

/// Whether the line is a node's.
pub fn is_node(verb: Verb) -> bool
    ensures value { result ≡ is_node verb }
{
    !matches!(verb, Verb::Code | Verb::Else | Verb::End)
}

// Puts in the name of the node with a number, where its line begins with one.
fn put_node<'t>(names: &mut Table<'t>, line: &Line<'t>, number: u32) -> Result<(), AllocError>
    ensures ok { OnOk result (table names.new ≡ put_all (node_entries number (saying line.now)) (table names.old)) }
{
    let Some(role) = makes(line.verb) else {
        return Ok(());
    };
    match line.name {
        Some(token) => put_in(names, name_made(line.verb, token), Made { role, number }),
        None => Ok(()),
    }
}

// Puts in the name of the code with a number, where the line begins one.
fn put_code<'t>(names: &mut Table<'t>, line: &Line<'t>, number: u32) -> Result<(), AllocError>
    ensures ok { OnOk result (table names.new ≡ put_all (code_entries number (saying line.now)) (table names.old)) }
{
    if !is_code(line.verb) {
        return Ok(());
    }
    match line.rest.as_slice() {
        [name, ..] => put_in(
            names,
            name,
            Made {
                role: Role::Callee,
                number,
            },
        ),
        [] => Ok(()),
    }
}

/// The names of the nodes of a code's lines.
pub fn nodes_named<'t>(alloc: Global, lines: &[Line<'t>]) -> Result<Table<'t>, AllocError>
    requires few { length lines.now < 2 ^ 32 }
    ensures value { IfOk result (λ t. table t ≡ nodes_from 0 (sayings_of lines.now) []) }
{
    let mut names = Table {
        entries: IndexMap::new(alloc),
    };
    let mut number: u32 = 0;
    let mut rest = lines;
    while let [line, others @ ..] = rest {
        put_node(&mut names, line, number)?;
        if is_node(line.verb) {
            number += 1;
        }
        rest = others;
    }
    Ok(names)
}

/// The names of the codes of a text's lines.
pub fn codes_named<'t>(alloc: Global, lines: &[Line<'t>]) -> Result<Table<'t>, AllocError>
    requires few { length lines.now < 2 ^ 32 }
    ensures value { IfOk result (λ t. table t ≡ codes_from 0 (sayings_of lines.now) []) }
{
    let mut names = Table {
        entries: IndexMap::new(alloc),
    };
    let mut number: u32 = 0;
    let mut rest = lines;
    while let [line, others @ ..] = rest {
        put_code(&mut names, line, number)?;
        if is_code(line.verb) {
            number += 1;
        }
        rest = others;
    }
    Ok(names)
}
