//! What moves in a change, and how a gate is turned and turned back.

use crate::components::{source, wires};
use crate::tables::{is_marked, number_at};
use hz_core::{Kind, Tri};
use hz_net::VarKind;
use hz_reach::{Change, Results};

/// A change and what is known of it, with a number for each node by which nodes are ordered before their ranks.
#[derive(Clone, Copy)]
pub(crate) struct Moving<'a> {
    pub(crate) change: &'a Change<'a>,
    pub(crate) results: &'a Results<'a>,
    pub(crate) parts: &'a [u32],
}

/// How the pins that move push a gate.
#[derive(Clone, Copy, PartialEq, Eq)]
pub(crate) enum Push {
    /// Each pin alone turns it.
    Any,
    /// It takes all of them.
    All,
    /// Some turn it, and more turn it back.
    Back,
}

/// The number of no wire.
pub(crate) const NO_WIRE: u32 = u32::MAX;

impl Moving<'_> {
    /// Whether a variable moves.
    pub(crate) fn moves(&self, var: u32) -> bool {
        match self.results.a.get(var as usize) {
            Some(value) => *value == Tri::Unknown,
            None => false,
        }
    }

    /// The value with which a variable begins.
    pub(crate) fn begins(&self, var: u32) -> bool {
        is_marked(self.change.start, var)
    }

    /// By which a node is ordered.
    pub(crate) fn key(&self, node: u32) -> (u32, u32) {
        (
            number_at(self.parts, node),
            number_at(self.results.ranks, node),
        )
    }

    // Whether the source of a wire comes before its gate.
    fn is_early(&self, wire: u32, gate: u32) -> bool {
        self.comes_before(source(self.change.net, wire), gate)
    }

    /// Whether a node comes before another.
    pub(crate) fn comes_before(&self, one: u32, other: u32) -> bool {
        let (part, rank) = self.key(one);
        let (other_part, other_rank) = self.key(other);
        part < other_part || part == other_part && rank < other_rank
    }

    /// The letter that alone gives a gate its value, if it has one.
    pub(crate) fn controlling(&self, gate: u32) -> Option<bool> {
        if gate >= self.change.net.len() {
            return None;
        }
        match self.change.net.kind_of(gate) {
            VarKind::Gate { kind } => match kind {
                Kind::And | Kind::Nand => Some(false),
                Kind::Or | Kind::Nor => Some(true),
                _ => None,
            },
            VarKind::Input { .. } => None,
            VarKind::Wire { .. } => None,
        }
    }

    /// How a gate is pushed.
    pub(crate) fn push_of(&self, gate: u32) -> Push {
        let (first, end) = wires(self.change.net, gate);
        match self.controlling(gate) {
            Some(letter) => self.controlled_push(first, end, letter),
            None => self.uncontrolled_push(first, end),
        }
    }

    // A gate with a controlling letter: one that has it is turned by all pins that have it, and back by another one.
    fn controlled_push(&self, first: u32, end: u32, letter: bool) -> Push {
        let mut controlled = false;
        let mut away = false;
        for wire in first..end {
            if self.begins(wire) == letter {
                controlled = true;
            } else if self.moves(wire) {
                away = true;
            }
        }
        if !controlled {
            Push::Any
        } else if away {
            Push::Back
        } else {
            Push::All
        }
    }

    // A parity is turned by one pin, and back by another.
    fn uncontrolled_push(&self, first: u32, end: u32) -> Push {
        let mut moving = 0;
        for wire in first..end {
            if self.moves(wire) && moving < 2 {
                moving += 1;
            }
        }
        if moving < 2 { Push::Any } else { Push::Back }
    }

    /// The first wire of a gate that moves and whose source comes before the gate.
    pub(crate) fn opening(&self, gate: u32) -> u32 {
        let (first, end) = wires(self.change.net, gate);
        for wire in first..end {
            if self.moves(wire) && self.is_early(wire, gate) {
                return wire;
            }
        }
        NO_WIRE
    }

    /// A wire that turns a gate back after its turn, by what turned it.
    pub(crate) fn closing(&self, gate: u32) -> u32 {
        let (first, end) = wires(self.change.net, gate);
        let letter = self.controlling(gate);
        let opening = self.opening(gate);
        for wire in first..end {
            let waits = match letter {
                Some(letter) => self.begins(wire) != letter,
                None => wire != opening,
            };
            if waits && self.moves(wire) {
                return wire;
            }
        }
        NO_WIRE
    }
}
