//! The codes of a text's lines, each read into its parts.
ghost use Rattle.std.specs.Prelude.{◌≡◌, ◌∷◌, ◌++◌, [], ◌+◌, ◌<◌, ◌≤◌, ◌^◌, true, length, map, IfOk, OnOk, IfErr};
ghost use Rattle.tam_read.specs.Parts.{body_of, pieces, faults_of_pieces, part_made, known_in, node_lines, or_nameless};
ghost use Rattle.tam_read.specs.PartView.{part, piece};
ghost use Rattle.tam_read.specs.Sentences.{is_code, code_begun};
ghost use Rattle.tam_read.specs.Naming.{faults_within};
ghost use Rattle.tam_read.specs.Tables.{table};
ghost use Rattle.tam_read.specs.LineView.{saying, numbered};
ghost use Rattle.tam_read.specs.Refusals.{IsFirst};

use crate::body::{build_body, node_lines};
use crate::building::Building;
use crate::line::Line;
use crate::naming::Known;
use crate::pass::is_code;
use crate::refused::Refused;
use crate::table::{Table, nodes_named};
use std::alloc::Global;

/// What is read of a code: its name, its nodes and blocks, and where its name and its nodes stand.
#[derive(Drop)]
pub struct Part<'t> {
    pub name: &'t [u8],
    pub built: Building,
    pub line: u32,
    pub lines: Vec<u32>,
}

// How many lines there are up to the next code.
fn body_len(lines: &[Line<'_>]) -> usize
    ensures len { result ≡ length (body_of (map numbered lines.now)) }
    ensures within { result ≤ length lines.now }
{
    let mut len = 0;
    let mut rest = lines;
    while let [line, others @ ..] = rest {
        if is_code(line.verb) {
            return len;
        }
        len += 1;
        rest = others;
    }
    len
}

// The lines up to the next code.
fn body_of<'l, 't>(lines: &'l [Line<'t>]) -> &'l [Line<'t>]
    ensures lines { map numbered result.now ≡ body_of (map numbered lines.now) }
    ensures few { length result.now ≤ length lines.now }
{
    let (body, _) = lines.split_at(body_len(lines));
    body
}

// The name in the first line of a code.
fn name_of<'t>(line: &Line<'t>) -> &'t [u8]
    requires code { is_code line.now.verb ≡ true }
    ensures value { result.now ≡ or_nameless (code_begun (saying line.now)) }
{
    match line.rest.as_slice() {
        [name, ..] => name,
        [] => b"",
    }
}

// Reads the code that begins with a line.
fn part_of<'t>(
    alloc: Global,
    codes: &Table<'t>,
    line: &Line<'t>,
    body: &[Line<'t>],
) -> Result<Part<'t>, Refused>
    requires few { length body.now < 2 ^ 31 }
    requires code { is_code line.now.verb ≡ true }
    ensures ok { IfOk result (λ p. part p ≡ part_made (table codes.now) (piece line.now body.now)) }
    ensures faultless { OnOk result (faults_within (known_in (table codes.now) (map numbered body.now)) (map numbered body.now) ≡ []) }
    ensures refused { IfErr result (IsFirst (faults_within (known_in (table codes.now) (map numbered body.now)) (map numbered body.now))) }
{
    let nodes = nodes_named(alloc, body)?;
    let names = Known {
        nodes: &nodes,
        codes,
    };
    match build_body(alloc, &names, body) {
        Ok(built) => Ok(Part {
            name: name_of(line),
            built,
            line: line.number,
            lines: node_lines(alloc, body)?,
        }),
        Err(refused) => Err(refused),
    }
}

/// Reads each code, up to the first line that names something unknown.
pub fn parts_of<'t>(
    alloc: Global,
    codes: &Table<'t>,
    lines: &[Line<'t>],
) -> Result<Vec<Part<'t>>, Refused>
    requires few { length lines.now < 2 ^ 31 }
    ensures ok { IfOk result (λ ps. map part ps.items ≡ map (part_made (table codes.now)) (pieces (map numbered lines.now))) }
    ensures faultless { OnOk result (faults_of_pieces (table codes.now) (pieces (map numbered lines.now)) ≡ []) }
    ensures refused { IfErr result (IsFirst (faults_of_pieces (table codes.now) (pieces (map numbered lines.now)))) }
{
    let mut parts = Vec::new(alloc);
    let mut rest = lines;
    while let [line, others @ ..] = rest {
        if is_code(line.verb) {
            match part_of(alloc, codes, line, body_of(others)) {
                Ok(part) => parts.push(part)?,
                Err(refused) => return Err(refused),
            }
        }
        rest = others;
    }
    Ok(parts)
}
