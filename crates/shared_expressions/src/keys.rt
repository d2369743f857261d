//! Keys by which nodes are looked up: one list of numbers for each node over its children.
ghost use Rattle.std.specs.Prelude.{◌≡◌, ◌<◌, ◌^◌, ◌++◌, ◌∷◌, [], pos, IfOk};
ghost use Rattle.shared_expressions.specs.Keys.{sheet_number, part_kind, part_number, spelled, truth_number, sign_number, op_number, fun_number, node_key, key_of};
ghost use Rattle.shared_expressions.specs.Stored.{AllBelow};

use crate::nodes::Node;
use cell_values::Int;
use formula_trees::{Fun, Op, Part, Reference, Sign};
use std::alloc::{AllocError, Global};

/// The key of a node over its children.
pub fn key_of(alloc: Global, node: Node, parts: &[usize]) -> Result<Vec<Int>, AllocError>
    requires { AllBelow (2 ^ 63) parts.now }
    ensures { IfOk result (λ key. key.items ≡ key_of node parts.now) }
{
    let mut key = node_key(alloc, node)?;
    for part in parts {
        push_child(&mut key, *part)?;
    }
    Ok(key)
}

/// A child's number at the end of a key.
fn push_child(key: &mut Vec<Int>, part: usize) -> Result<(), AllocError>
    requires { part < 2 ^ 63 }
    ensures { IfOk result (λ _. key.new.items ≡ key.old.items ++ pos part ∷ []) }
{
    key.push(part as Int)?;
    Ok(())
}

fn node_key(alloc: Global, node: Node) -> Result<Vec<Int>, AllocError>
    ensures { IfOk result (λ key. key.items ≡ node_key node) }
{
    match node {
        Node::Number(n) => [0, n].to_vec(alloc),
        Node::Text(t) => [1, (t.0 / 4294967296) as Int, (t.0 % 4294967296) as Int].to_vec(alloc),
        Node::Bool(b) => [2, truth_number(b)].to_vec(alloc),
        Node::Ref(r) => {
            let mut key = [3].to_vec(alloc)?;
            key.extend_from_slice(&spelled(r))?;
            Ok(key)
        }
        Node::Range(r, s) => {
            let mut key = [4].to_vec(alloc)?;
            key.extend_from_slice(&spelled(r))?;
            key.extend_from_slice(&spelled(s))?;
            Ok(key)
        }
        Node::RefError => [5].to_vec(alloc),
        Node::Unary(sign) => [6, sign_number(sign)].to_vec(alloc),
        Node::Binary(op) => [7, op_number(op)].to_vec(alloc),
        Node::Call(fun) => [8, fun_number(fun)].to_vec(alloc),
    }
}

fn spelled(reference: Reference) -> [Int; 5]
    ensures { result ≡ spelled reference }
{
    [
        sheet_number(reference.sheet),
        part_kind(reference.col),
        part_number(reference.col),
        part_kind(reference.row),
        part_number(reference.row),
    ]
}

fn sheet_number(sheet: Option<u8>) -> Int
    ensures { result ≡ sheet_number sheet }
{
    match sheet {
        None => 0,
        Some(s) => Int::from(s) + 1,
    }
}

fn part_kind(part: Part) -> Int
    ensures { result ≡ part_kind part }
{
    match part {
        Part::At(_) => 0,
        Part::By(_) => 1,
    }
}

fn part_number(part: Part) -> Int
    ensures { result ≡ part_number part }
{
    match part {
        Part::At(n) => Int::from(n),
        Part::By(d) => Int::from(d),
    }
}

fn truth_number(b: bool) -> Int
    ensures { result ≡ truth_number b }
{
    match b {
        false => 0,
        true => 1,
    }
}

fn sign_number(sign: Sign) -> Int
    ensures { result ≡ sign_number sign }
{
    match sign {
        Sign::Minus => 0,
        Sign::Plus => 1,
    }
}

fn op_number(op: Op) -> Int
    ensures { result ≡ op_number op }
{
    match op {
        Op::Add => 0,
        Op::Sub => 1,
        Op::Mul => 2,
        Op::Div => 3,
        Op::Eq => 4,
        Op::Ne => 5,
        Op::Lt => 6,
        Op::Le => 7,
        Op::Gt => 8,
        Op::Ge => 9,
        Op::Join => 10,
    }
}

fn fun_number(fun: Fun) -> Int
    ensures { result ≡ fun_number fun }
{
    match fun {
        Fun::If => 0,
        Fun::And => 1,
        Fun::Or => 2,
        Fun::Not => 3,
        Fun::Choose => 4,
        Fun::IfError => 5,
        Fun::IsError => 6,
        Fun::Sum => 7,
        Fun::Min => 8,
        Fun::Max => 9,
        Fun::Count => 10,
        Fun::Abs => 11,
        Fun::Mod => 12,
        Fun::Quotient => 13,
        Fun::Index => 14,
        Fun::Match => 15,
        Fun::VLookup => 16,
        Fun::HLookup => 17,
        Fun::Left => 18,
        Fun::Right => 19,
        Fun::Mid => 20,
        Fun::Len => 21,
    }
}
