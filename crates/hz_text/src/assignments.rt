// Assignments `name = word`, looked up in a circuit, and what each text asks of them.

ghost use Rattle.std.specs.Prelude.{◌≡◌, ◌<◌, ◌≤◌, length, map, Some, None, IfOk, IfSome, MatchResult, vec_len, slice_index, EachIndex, not, position};
ghost use Rattle.std.specs.List.{range_with_len};
ghost use Rattle.hz_line.specs.Reading.{by_tokens, IsUnread};
ghost use Rattle.hz_line.specs.Token.{tokens_of};
ghost use Rattle.hz_text.specs.AssignmentsRead.{IsAssignmentFirst};
ghost use Rattle.hz_text.specs.Assignment.{bit_of, assigned_of, assigned_by, is_not_allowed, any_unknown, any_bitless, assigns};
ghost use Rattle.hz_text.specs.Bits.{allowed_by};
ghost use Rattle.hz_text.specs.Rules.{AreBelow, repeats_node, least_unassigned, with_node_marked};

use hz_core::{Circuit, Memory};
use hz_line::{Punctuation, StatementFault, first_punctuation, first_word, is_blank_line};
use std::alloc::Global;
use std::marker::Model;

/// An assignment `name = word`: the node that has the name and the bit that the word is, if there are such.
#[derive(Debug, Drop)]
pub struct Assigned {
    pub(crate) node: Option<u32>,
    pub(crate) bit: Option<bool>,
}

impl Model for Assigned {
    ghost use Rattle.hz_text.specs.Assignment.{Assigned};

    ghost Value = { Assigned };

    ghost view = { λ inside. record { node = inside.node; bit = inside.bit } };
}

/// Which nodes a statement may assign.
#[derive(Clone, Copy, Debug)]
pub enum Allowed {
    Nodes,
    Inputs,
    Gates,
}

// An assignment as it is written, and the line after it.
#[derive(Clone, Copy)]
struct Written<'a> {
    name: &'a [u8],
    word: &'a [u8],
    rest: &'a [u8],
}

/// The assignments that the tokens of a line are.
pub fn read_assignments(
    alloc: Global,
    circuit: &Circuit,
    line: &[u8],
) -> Result<Vec<Assigned>, StatementFault>
    ensures read { MatchResult result
        (λ read. by_tokens (assigned_by circuit.now) (tokens_of line.now) ≡ Some read.items)
        (λ why. IsUnread (by_tokens (assigned_by circuit.now) (tokens_of line.now)) why) }
    ensures below { IfOk result (λ read. AreBelow (length circuit.now.names) read.items) }
{
    let mut read = Vec::new(alloc);
    let mut rest = line;
    while !is_blank_line(rest) {
        let Some(first) = first_assignment(rest) else {
            return Err(StatementFault::Form);
        };
        read.push(assignment(circuit, first.name, first.word))?;
        rest = first.rest;
    }
    Ok(read)
}

// The assignment with which a line begins that has tokens.
fn first_assignment<'a>(line: &'a [u8]) -> Option<Written<'a>>
    ensures { IsAssignmentFirst line.now result }
{
    let (name, after) = first_word(line)?;
    let (mark, value) = first_punctuation(after)?;
    let (word, rest) = first_word(value)?;
    match mark {
        Punctuation::Equals => Some(Written { name, word, rest }),
        Punctuation::Open => None,
        Punctuation::Close => None,
        Punctuation::Comma => None,
    }
}

// The assignment of a word to a name.
fn assignment(circuit: &Circuit, name: &[u8], word: &[u8]) -> Assigned
    ensures value { result ≡ assigned_of circuit.now (record { name = name.now; word = word.now }) }
    ensures below { IfSome result.node (λ node. node < length circuit.now.names) }
{
    Assigned {
        node: circuit.find(name),
        bit: bit(word),
    }
}

// The bit that a word is.
fn bit(word: &[u8]) -> Option<bool>
    ensures { result ≡ bit_of word.now }
{
    if word == b"0".as_slice() {
        Some(false)
    } else if word == b"1".as_slice() {
        Some(true)
    } else {
        None
    }
}

/// Whether some assignment is to what may not be assigned. The first nodes are the inputs, so many of them.
pub fn any_unknown(all: &[Assigned], allowed: Allowed, inputs: u32) -> bool
    ensures { result ≡ any_unknown inputs (allowed_by allowed) all.now }
{
    all.iter()
        .any(|assigned| is_unknown(assigned.node, allowed, inputs))
}

// Whether this may not be assigned.
fn is_unknown(node: Option<u32>, allowed: Allowed, inputs: u32) -> bool
    ensures { result ≡ is_not_allowed inputs (allowed_by allowed) node }
{
    let Some(node) = node else { return true };
    match allowed {
        Allowed::Nodes => false,
        Allowed::Inputs => inputs <= node,
        Allowed::Gates => node < inputs,
    }
}

/// Whether a word is assigned that is no bit.
pub fn any_without_bit(all: &[Assigned]) -> bool
    ensures { result ≡ any_bitless all.now }
{
    all.iter().any(|assigned| assigned.bit.is_none())
}

// Whether a node is assigned twice. Each node that is assigned gets this mark, which is above all earlier ones.
pub(crate) fn repeats(all: &[Assigned], marks: &mut [usize], mark: usize) -> bool
    requires nodes { AreBelow (length marks.old) all.now }
    requires above { EachIndex marks.old (λ node. slice_index marks.old node < mark) }
    ensures repeats { result ≡ repeats_node all.now }
    ensures above { EachIndex marks.new (λ node. slice_index marks.new node ≤ mark) }
{
    for assigned in all {
        if let Some(node) = assigned.node {
            if marks[node as usize] == mark {
                return true;
            }
            marks[node as usize] = mark;
        }
    }
    false
}

/// The least of the first so many nodes that is not assigned.
pub fn least_unassigned(alloc: Global, all: &[Assigned], nodes: u32) -> Result<Option<u32>, Memory>
    ensures { IfOk result (λ missing. missing ≡ least_unassigned nodes all.now) }
{
    let listed = listed_nodes(alloc, all, nodes)?;
    match first_unlisted(listed.as_slice()) {
        Some(node) => Ok(Some(node as u32)),
        None => Ok(None),
    }
}

fn first_unlisted(listed: &[bool]) -> Option<usize>
    ensures first { result ≡ position not listed.now }
    ensures within { IfSome result (λ node. node < length listed.now) }
{
    listed.iter().position(|listed| !*listed)
}

// For each of the first so many nodes, whether it is assigned.
fn listed_nodes(alloc: Global, all: &[Assigned], nodes: u32) -> Result<Vec<bool>, Memory>
    ensures listed { IfOk result
        (λ listed. listed.items ≡ map (assigns all.now) (range_with_len 0 nodes)) }
    ensures len { IfOk result (λ listed. vec_len listed ≡ nodes) }
{
    let mut listed = vec![in alloc; false; nodes as usize]?;
    for assigned in all {
        mark(listed.as_mut_slice(), assigned.node);
    }
    Ok(listed)
}

// Marks a node, if there is one among those of the list.
fn mark(marks: &mut [bool], node: Option<u32>)
    ensures { marks.new ≡ with_node_marked marks.old node }
{
    let Some(node) = node else { return };
    let node = node as usize;
    if node < marks.len() {
        marks[node] = true;
    }
}
