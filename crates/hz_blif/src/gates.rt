//! The gates of covers.
//!
//! The gates of all covers stand one after the other, each with what its pins read: a name of the
//! text, or an inverter or a row gate of its own cover. These two have names that no text can have,
//! so they are known by their numbers, and never looked up.

ghost use Rattle.std.specs.Prelude.{◌≡◌, ◌+◌, ◌<◌, ◌≤◌, ◌++◌, ◌∷◌, [], ℕ, Contains, IfOk, List, OnOk, length, map, if◌then◌else◌};
ghost use Rattle.hz_core.specs.declared.kind.Kind.TheVariants.{And, Nand, Or, Nor, Not, Buff};
ghost use Rattle.std.specs.List.{slice_index_or};
ghost use Rattle.hz_netlist.specs.declared.draft.Source.TheVariants.{Name};
ghost use Rattle.hz_core.specs.Limits.{most_gate_pins};
ghost use Rattle.hz_netlist.specs.Element.{variable_total};
ghost use Rattle.hz_blif.specs.Entries.{AreNamed, GrowBy, HasNamesBelow, HoldsGates, IsOnlyLiteral, IsPlane, IsPrefix, IsWholeCover, ReadAs};
ghost use Rattle.hz_blif.specs.Entries.{column_by, cover_by, elements_by, inverted_by, inverted_from, inverters_by, literal_at, literal_source_with, literal_sources, planes_by, row_gate_by, row_gates_by, term_by, terms_by, variables_of};
ghost use Rattle.hz_blif.specs.Gates.{has_zero, inverters_from, literal_gate};
ghost use Rattle.hz_blif.specs.Reading.{bytes_of};

use crate::cover::Cover;
use hz_core::{Kind, Memory};
use hz_netlist::{Gate, Role, Source, push};
use std::alloc::Global;

/// The gates of covers, in the order of the text.
#[derive(Drop)]
pub(crate) struct Gates {
    gates: Vec<Gate>,
    /// What their pins read, gate after gate.
    sources: Vec<Source>,
    /// For each pin of a cover its inverter; the pin itself, where it has none.
    inverted: Vec<Source>,
    /// The terms of a cover.
    terms: Vec<Source>,
}

impl Gates {
    /// Without covers.
    pub(crate) fn new(alloc: Global) -> Gates
        ensures holds { HoldsGates result }
        ensures gates { result.gates.items ≡ [] }
        ensures sources { result.sources.items ≡ [] }
    {
        Gates {
            gates: Vec::new(alloc),
            sources: Vec::new(alloc),
            inverted: Vec::new(alloc),
            terms: Vec::new(alloc),
        }
    }

    /// The gates.
    pub(crate) fn as_slice(&self) -> &[Gate]
        ensures { result.now ≡ self.now.gates.items }
    {
        self.gates.as_slice()
    }

    /// What their pins read.
    pub(crate) fn sources(&self) -> &[Source]
        ensures { result.now ≡ self.now.sources.items }
    {
        self.sources.as_slice()
    }

    /// How many gates and pins there are.
    pub(crate) fn variables(&self) -> usize
        ensures { result ≡ variables_of self.now }
    {
        self.gates.len() + self.sources.len()
    }

    /// Forgets all gates.
    pub(crate) fn clear(&mut self)
        ensures holds { HoldsGates self.new }
        ensures gates { self.new.gates.items ≡ [] }
        ensures sources { self.new.sources.items ≡ [] }
    {
        self.gates.clear();
        self.sources.clear();
    }

    /// Adds the gates of a cover that is not constant.
    pub(crate) fn add_cover(&mut self, cover: &Cover) -> Result<(), Memory>
        requires whole { IsWholeCover cover.now }
        requires holds { HoldsGates self.old }
        ensures holds { OnOk result (HoldsGates self.new) }
        ensures named { OnOk result ((names : ℕ)
            → AreNamed names self.old → HasNamesBelow names cover.now → AreNamed names self.new) }
        ensures elements { OnOk result ((name : ℕ → List ℕ)
            → elements_by name self.new ≡ elements_by name self.old ++ cover_by name cover.now) }
        ensures counted { OnOk result ((name : ℕ → List ℕ)
            → variables_of self.new ≡ variables_of self.old + variable_total
            (cover_by name cover.now)) }
    {
        self.add_planes(cover)
    }

    // Adds the gates of a cover by how many rows it has.
    fn add_planes(&mut self, cover: &Cover) -> Result<(), Memory>
        requires whole { IsWholeCover cover.now }
        requires holds { HoldsGates self.old }
        ensures { OnOk result (GrowBy cover.now
            (λ name. cover_by name cover.now) self.old self.new) }
    {
        match cover.planes() {
            [] => Ok(()),
            [plane] => self.add_single(cover, *plane),
            planes => self.add_rows(cover, planes),
        }
    }

    // Adds the gates of a cover of one row.
    fn add_single(&mut self, cover: &Cover, plane: &[u8]) -> Result<(), Memory>
        requires whole { IsWholeCover cover.now }
        requires holds { HoldsGates self.old }
        requires plane { bytes_of cover.now.rows.planes.items ≡ plane.now ∷ [] }
        ensures { OnOk result (GrowBy cover.now
            (λ name. cover_by name cover.now) self.old self.new) }
    {
        if let Some(literal) = only_literal(plane) {
            return self.add_literal(cover, literal);
        }
        self.add_inverters(cover)?;
        let pins = self.push_literals(cover, plane)?;
        let kind = row_kind(cover.column());
        self.add_gate(cover, Role::Output, kind, pins)
    }

    // Adds the gate of a cover of one row with one literal: a buffer where the literal equals the
    // output column, else an inverter.
    fn add_literal(&mut self, cover: &Cover, literal: Literal) -> Result<(), Memory>
        requires pin { literal.pin < length cover.now.pins.items }
        requires holds { HoldsGates self.old }
        ensures { OnOk result (GrowBy cover.now
            (λ name. literal_gate (name cover.now.output) (column_by cover.now)
            (literal_at (map name cover.now.pins.items) literal) ∷ []) self.old self.new) }
    {
        let kind = literal_kind(literal.is_plain, cover.column());
        push(&mut self.sources, Source::Name(cover.pins[literal.pin]))?;
        self.add_gate(cover, Role::Output, kind, 1)
    }

    // Adds the gates of a cover of several rows.
    fn add_rows(&mut self, cover: &Cover, planes: &[&[u8]]) -> Result<(), Memory>
        requires whole { IsWholeCover cover.now }
        requires holds { HoldsGates self.old }
        requires planes { planes.now ≡ cover.now.rows.planes.items }
        requires several { 1 < length planes.now }
        ensures { OnOk result (GrowBy cover.now
            (λ name. cover_by name cover.now) self.old self.new) }
    {
        self.add_inverters(cover)?;
        self.add_terms(cover, planes)?;
        let terms = self.terms.as_slice();
        extend(&mut self.sources, terms)?;
        let kind = rows_kind(cover.column());
        self.add_gate(cover, Role::Output, kind, planes.len())
    }

    // Adds the gates of rows with two literals or more, and makes the terms of all rows.
    fn add_terms(&mut self, cover: &Cover, planes: &[&[u8]]) -> Result<(), Memory>
        requires whole { IsWholeCover cover.now }
        requires holds { HoldsGates self.old }
        requires planes { planes.now ≡ cover.now.rows.planes.items }
        requires inverted { ReadAs cover.now self.old.gates.items self.old.inverted.items
            (λ name. inverted_by name cover.now) }
        ensures grown { OnOk result
            (GrowBy cover.now (λ name. row_gates_by name cover.now (bytes_of planes.now)) self.old
            self.new) }
        ensures terms { OnOk result (ReadAs cover.now self.new.gates.items self.new.terms.items
            (λ name. terms_by name cover.now (bytes_of planes.now))) }
    {
        self.terms.clear();
        let mut row = 0;
        for plane in planes {
            row += 1;
            match self.add_term(cover, row, *plane) {
                Ok(()) => {}
                Err(Memory) => return Err(Memory),
            }
        }
        Ok(())
    }

    // Adds the gate of a row with two literals or more, and makes the term of the row.
    fn add_term(&mut self, cover: &Cover, row: u32, plane: &[u8]) -> Result<(), Memory>
        requires holds { HoldsGates self.old }
        requires plane { IsPlane cover.now plane.now }
        requires inverted { ReadAs cover.now self.old.gates.items self.old.inverted.items
            (λ name. inverted_by name cover.now) }
        ensures grown { OnOk result
            (GrowBy cover.now (λ name. row_gate_by name cover.now row plane.now) self.old
            self.new) }
        ensures terms { OnOk result ((names : (ℕ → List ℕ) → List (List ℕ))
            → ReadAs cover.now self.old.gates.items self.old.terms.items names
            → ReadAs cover.now self.new.gates.items self.new.terms.items
            (λ name. names name ++ term_by name cover.now row plane.now ∷ [])) }
        ensures inverted { OnOk result
            (ReadAs cover.now self.new.gates.items self.new.inverted.items
            (λ name. inverted_by name cover.now)) }
    {
        let term = self.add_row(cover, row, plane)?;
        push(&mut self.terms, term)
    }

    // Adds the gate of a row with two literals or more; the term of the row.
    fn add_row(&mut self, cover: &Cover, row: u32, plane: &[u8]) -> Result<Source, Memory>
        requires holds { HoldsGates self.old }
        requires plane { IsPlane cover.now plane.now }
        requires inverted { ReadAs cover.now self.old.gates.items self.old.inverted.items
            (λ name. inverted_by name cover.now) }
        ensures grown { OnOk result
            (GrowBy cover.now (λ name. row_gate_by name cover.now row plane.now) self.old
            self.new) }
        ensures term { IfOk result (λ source.
            ReadAs cover.now self.new.gates.items (source ∷ [])
            (λ name. term_by name cover.now row plane.now ∷ [])) }
        ensures gates { OnOk result (IsPrefix self.old.gates.items self.new.gates.items) }
        ensures inverted { self.new.inverted ≡ self.old.inverted }
        ensures terms { self.new.terms ≡ self.old.terms }
    {
        let before = self.sources.len();
        let pins = self.push_literals(cover, plane)?;
        if pins == 1 {
            let literal = self.sources[before];
            self.sources.truncate(before);
            return Ok(literal);
        }
        let gate = Source::Gate(self.gates.len());
        self.add_gate(cover, Role::Row(row), Kind::And, pins)?;
        Ok(gate)
    }

    // Adds the inverters of a cover, one for each pin that is 0 in some plane.
    fn add_inverters(&mut self, cover: &Cover) -> Result<(), Memory>
        requires few { length cover.now.pins.items ≤ most_gate_pins }
        requires holds { HoldsGates self.old }
        ensures grown { OnOk result (GrowBy cover.now
            (λ name. inverters_by name cover.now) self.old self.new) }
        ensures inverted { OnOk result
            (ReadAs cover.now self.new.gates.items self.new.inverted.items
            (λ name. inverted_by name cover.now)) }
    {
        self.inverted.clear();
        for (pin, name) in cover.pins.iter().enumerate() {
            match self.invert_pin(cover, pin, *name) {
                Ok(()) => {}
                Err(Memory) => return Err(Memory),
            }
        }
        Ok(())
    }

    // Adds the inverter of a pin, if it is 0 in some plane, and notes what stands for the pin's 0.
    fn invert_pin(&mut self, cover: &Cover, pin: usize, name: u32) -> Result<(), Memory>
        requires few { pin < most_gate_pins }
        requires holds { HoldsGates self.old }
        requires name { Contains cover.now.pins.items name }
        ensures grown { OnOk result (GrowBy cover.now
            (λ names. inverters_from (names cover.now.output) (planes_by cover.now) pin
            (names name ∷ [])) self.old self.new) }
        ensures inverted { OnOk result ((before : (ℕ → List ℕ) → List (List ℕ))
            → ReadAs cover.now self.old.gates.items self.old.inverted.items before
            → ReadAs cover.now self.new.gates.items self.new.inverted.items (λ names. before names
            ++ inverted_from (names cover.now.output) (planes_by cover.now) pin
            (names name ∷ []))) }
    {
        let source = self.add_inverter(cover, pin, name)?;
        push(&mut self.inverted, source)
    }

    // Adds the inverter of a pin, if it is 0 in some plane; what stands for the pin's 0.
    fn add_inverter(&mut self, cover: &Cover, pin: usize, name: u32) -> Result<Source, Memory>
        requires few { pin < most_gate_pins }
        requires holds { HoldsGates self.old }
        requires name { Contains cover.now.pins.items name }
        ensures grown { OnOk result (GrowBy cover.now
            (λ names. inverters_from (names cover.now.output) (planes_by cover.now) pin
            (names name ∷ [])) self.old self.new) }
        ensures source { IfOk result (λ source. ReadAs cover.now self.new.gates.items (source ∷ [])
            (λ names. inverted_from (names cover.now.output) (planes_by cover.now) pin
            (names name ∷ []))) }
        ensures gates { OnOk result (IsPrefix self.old.gates.items self.new.gates.items) }
        ensures inverted { self.new.inverted ≡ self.old.inverted }
    {
        if !has_zero(cover.planes(), pin) {
            return Ok(Source::Name(name));
        }
        let inverter = Source::Gate(self.gates.len());
        push(&mut self.sources, Source::Name(name))?;
        self.add_gate(cover, Role::Inverter(pin as u32 + 1), Kind::Not, 1)?;
        Ok(inverter)
    }

    // Adds what the literals of a plane stand for to the sources; how many they are.
    #[tactic(auto, using(crate::proofs::LiteralLemmas::literal_sources_step, crate::proofs::LiteralLemmas::literal_sources_past))]
    fn push_literals(&mut self, cover: &Cover, plane: &[u8]) -> Result<usize, Memory>
        requires plane { length plane.now ≡ length cover.now.pins.items }
        requires inverted { length self.old.inverted.items ≡ length cover.now.pins.items }
        ensures sources { OnOk result (self.new.sources.items
            ≡ self.old.sources.items
            ++ literal_sources cover.now.pins.items self.old.inverted.items plane.now) }
        ensures count { IfOk result (λ count.
            count
            ≡ length (literal_sources cover.now.pins.items self.old.inverted.items plane.now)) }
        ensures gates { self.new.gates ≡ self.old.gates }
        ensures inverted { self.new.inverted ≡ self.old.inverted }
        ensures terms { self.new.terms ≡ self.old.terms }
    {
        let before = self.sources.len();
        for (pin, byte) in plane.iter().enumerate() {
            match self.push_literal(cover, pin, *byte) {
                Ok(()) => {}
                Err(Memory) => return Err(Memory),
            }
        }
        Ok(self.sources.len() - before)
    }

    // Adds what a byte of a plane stands for to the sources, if it is a literal.
    #[inline(always)]
    fn push_literal(&mut self, cover: &Cover, pin: usize, byte: u8) -> Result<(), Memory>
        requires pin { pin < length cover.now.pins.items }
        requires inverted { pin < length self.old.inverted.items }
        ensures sources { OnOk result (self.new.sources.items ≡ self.old.sources.items
            ++ literal_source_with (slice_index_or cover.now.pins.items pin 0)
            (slice_index_or self.old.inverted.items pin (Name 0)) byte []) }
        ensures gates { self.new.gates ≡ self.old.gates }
        ensures inverted { self.new.inverted ≡ self.old.inverted }
        ensures terms { self.new.terms ≡ self.old.terms }
    {
        let source = match byte {
            b'-' => return Ok(()),
            b'0' => self.inverted[pin],
            _ => Source::Name(cover.pins[pin]),
        };
        push(&mut self.sources, source)
    }

    // Adds a gate whose pins read the last sources.
    fn add_gate(&mut self, cover: &Cover, role: Role, kind: Kind, pins: usize) -> Result<(), Memory>
        ensures gates { OnOk result (self.new.gates.items
            ≡ self.old.gates.items
            ++ record { role = role; kind = kind; output = cover.now.output; pins = pins } ∷ []) }
        ensures sources { self.new.sources ≡ self.old.sources }
        ensures inverted { self.new.inverted ≡ self.old.inverted }
        ensures terms { self.new.terms ≡ self.old.terms }
    {
        push(
            &mut self.gates,
            Gate {
                role,
                kind,
                output: cover.output,
                pins,
            },
        )
    }
}

// A literal: its pin, counted from 0, and whether it is a 1.
#[derive(Clone, Copy)]
pub(crate) struct Literal {
    pin: usize,
    is_plain: bool,
}

// The kind of the gate of a cover of one row with one literal.
fn literal_kind(is_plain: bool, column: bool) -> Kind
    ensures { result ≡ (if is_plain then (if column then Buff else Not) else
        (if column then Not else Buff)) }
{
    if is_plain == column {
        Kind::Buff
    } else {
        Kind::Not
    }
}

// The kind of the gate of a cover of one row with several literals.
fn row_kind(column: bool) -> Kind
    ensures { result ≡ (if column then And else Nand) }
{
    if column { Kind::And } else { Kind::Nand }
}

// The kind of the gate of a cover of several rows.
fn rows_kind(column: bool) -> Kind
    ensures { result ≡ (if column then Or else Nor) }
{
    if column { Kind::Or } else { Kind::Nor }
}

// The literal of a plane that has no other.
#[tactic(auto, using(crate::proofs::LiteralLemmas::literals_step, crate::proofs::LiteralLemmas::literals_past))]
fn only_literal(plane: &[u8]) -> Option<Literal>
    ensures { (pins : List (List ℕ)) → length pins ≡ length plane.now
        → IsOnlyLiteral pins plane.now result }
{
    let mut found = None;
    for (pin, byte) in plane.iter().enumerate() {
        if *byte != b'-' {
            if found.is_some() {
                return None;
            }
            found = Some(Literal {
                pin,
                is_plain: *byte != b'0',
            });
        }
    }
    found
}

// Whether a pin is 0 in some plane.
fn has_zero(planes: &[&[u8]], pin: usize) -> bool
    ensures { result ≡ has_zero (bytes_of planes.now) pin }
{
    for plane in planes {
        if plane.get(pin) == Some(&b'0') {
            return true;
        }
    }
    false
}

// Adds items to a list.
fn extend(list: &mut Vec<Source>, items: &[Source]) -> Result<(), Memory>
    ensures { OnOk result (list.new.items ≡ list.old.items ++ items.now) }
{
    match list.extend_from_slice(items) {
        Ok(()) => Ok(()),
        Err(_) => Err(Memory),
    }
}
