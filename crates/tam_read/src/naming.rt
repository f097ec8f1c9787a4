//! What the tokens of a line name.
ghost use Rattle.std.specs.Prelude.{◌≡◌, ◌∷◌, [], take, option_to_list};
ghost use Rattle.tam_read.specs.Sentences.{roles_of, same_role, each_token};
ghost use Rattle.tam_read.specs.Tables.{table, found};
ghost use Rattle.tam_read.specs.Naming.{is_made, is_node_found, is_code_found, faults_known, number_for, first_number, second_number, third_number};
ghost use Rattle.tam_read.specs.Naming.{or_number, or_zero};
ghost use Rattle.tam_read.specs.KnownView.{known};
ghost use Rattle.tam_read.specs.LineView.{saying};
ghost use Rattle.tam_read.specs.SaidView.{texts};

use crate::cause::ReadCause;
use crate::faults::MAX_PLACE;
use crate::form::{Role, roles_of};
use crate::line::Line;
use crate::table::{Made, Table, find};
use tam_word::{read_number, read_word};

/// The names of a code's nodes, and of the codes.
#[derive(Clone, Copy)]
pub struct Known<'k, 't> {
    pub nodes: &'k Table<'t>,
    pub codes: &'k Table<'t>,
}

fn same_role(first: Role, second: Role) -> bool
    ensures value { result ≡ same_role first second }
{
    matches!(
        (first, second),
        (Role::Value, Role::Value)
            | (Role::Call, Role::Call)
            | (Role::Cond, Role::Cond)
            | (Role::Callee, Role::Callee)
            | (Role::Code, Role::Code)
            | (Role::Place, Role::Place)
            | (Role::Word, Role::Word)
    )
}

fn is_made(role: Role, made: Option<Made>) -> bool
    ensures value { result ≡ is_made role made }
{
    match made {
        None => false,
        Some(made) => same_role(role, made.role),
    }
}

// Whether the name is that of a node, where the role asks for one.
fn is_node_found(nodes: &Table<'_>, role: Role, name: &[u8]) -> bool
    ensures value { result ≡ is_node_found (table nodes.now) role name.now }
{
    match role {
        Role::Value | Role::Call | Role::Cond => is_made(role, find(nodes, name)),
        _ => true,
    }
}

// Whether the name is that of a code, where the role asks for one.
fn is_code_found(codes: &Table<'_>, role: Role, name: &[u8]) -> bool
    ensures value { result ≡ is_code_found (table codes.now) role name.now }
{
    match role {
        Role::Callee => is_made(role, find(codes, name)),
        _ => true,
    }
}

fn are_nodes_found(nodes: &Table<'_>, roles: &[Role], names: &[&[u8]]) -> bool
    ensures value { result ≡ each_token (is_node_found (table nodes.now)) roles.now (texts names.now) }
{
    let mut roles = roles;
    let mut names = names;
    while let [role, other_roles @ ..] = roles {
        let [name, other_names @ ..] = names else {
            return true;
        };
        if !is_node_found(nodes, *role, name) {
            return false;
        }
        roles = other_roles;
        names = other_names;
    }
    true
}

fn are_codes_found(codes: &Table<'_>, roles: &[Role], names: &[&[u8]]) -> bool
    ensures value { result ≡ each_token (is_code_found (table codes.now)) roles.now (texts names.now) }
{
    let mut roles = roles;
    let mut names = names;
    while let [role, other_roles @ ..] = roles {
        let [name, other_names @ ..] = names else {
            return true;
        };
        if !is_code_found(codes, *role, name) {
            return false;
        }
        roles = other_roles;
        names = other_names;
    }
    true
}

/// The first fault of a line by what its tokens name.
pub fn names_cause(names: &Known<'_, '_>, line: &Line<'_>) -> Option<ReadCause>
    ensures value { option_to_list result ≡ take 1 (faults_known (known names.now) (saying line.now)) }
{
    if !are_nodes_found(names.nodes, roles_of(line.verb), &line.rest) {
        return Some(ReadCause::UnknownName);
    }
    if !are_codes_found(names.codes, roles_of(line.verb), &line.rest) {
        return Some(ReadCause::UnknownCode);
    }
    None
}

fn number_found(names: &Table<'_>, name: &[u8]) -> u32
    ensures value { result ≡ or_number (found name.now (table names.now)) }
{
    match find(names, name) {
        None => 0,
        Some(made) => made.number,
    }
}

// The number that a token stands for.
fn number_for(names: &Known<'_, '_>, role: Role, token: &[u8]) -> u32
    ensures value { result ≡ number_for (known names.now) role token.now }
{
    match role {
        Role::Value | Role::Call | Role::Cond => number_found(names.nodes, token),
        Role::Callee => number_found(names.codes, token),
        Role::Code => 0,
        Role::Place => read_number(token, MAX_PLACE).unwrap_or(0),
        Role::Word => read_word(token).unwrap_or(0),
    }
}

/// The number of the first token, or 0.
pub fn first_number(names: &Known<'_, '_>, roles: &[Role], tokens: &[&[u8]]) -> u32
    ensures value { result ≡ first_number (known names.now) roles.now (texts tokens.now) }
{
    let [role, ..] = roles else {
        return 0;
    };
    let [token, ..] = tokens else {
        return 0;
    };
    number_for(names, *role, token)
}

/// The number of the second token, or 0.
pub fn second_number(names: &Known<'_, '_>, roles: &[Role], tokens: &[&[u8]]) -> u32
    ensures value { result ≡ second_number (known names.now) roles.now (texts tokens.now) }
{
    let [_, roles @ ..] = roles else {
        return 0;
    };
    let [_, tokens @ ..] = tokens else {
        return 0;
    };
    first_number(names, roles, tokens)
}

/// The number of the third token, or 0.
pub fn third_number(names: &Known<'_, '_>, roles: &[Role], tokens: &[&[u8]]) -> u32
    ensures value { result ≡ third_number (known names.now) roles.now (texts tokens.now) }
{
    let [_, roles @ ..] = roles else {
        return 0;
    };
    let [_, tokens @ ..] = tokens else {
        return 0;
    };
    second_number(names, roles, tokens)
}
