//! Reading dumps.
ghost use Rattle.std.specs.Prelude.{◌≡◌, ◌≢◌, ◌+◌, ◌<◌, ◌≤◌, ◌∷◌, [], ℕ, Bool, List, length, slice_index_or, MatchBool, MatchResult, OnOk, All};
ghost use Rattle.hz_core.specs.Limits.{most_variables};
ghost use Rattle.hz_line.specs.Line.{most_text_bytes};
ghost use Rattle.hz_vcd.specs.Word.{words_of};
ghost use Rattle.hz_vcd.specs.FirstWrong.{MeansAlone, IsFaultOf};
ghost use Rattle.hz_gmw.specs.Runs.{state_after, end_of};
ghost use Rattle.hz_vcd.specs.Dump.{AreFlips, time_word};
ghost use Rattle.hz_vcd.specs.Reading.{IsBitRead, IsValueRead, Values, Steps, Changes, Fails, Means, all_words, ReadsValue, AllRead, StateRead, state_head, StepRead, AreAt, IsChangeRead};

use crate::code::read_code;
use crate::fault::VcdFault;
use crate::head::{expect, expect_all, read_head};
use crate::wave::Wave;
use crate::words::Words;
use hz_gmw::Run;
use hz_net::Net;
use itoa::Buffer;
use std::alloc::Global;

/// Reads a dump of the variables of a network.
///
/// Time and memory are linear in the text and the network. Values `x` and `z` and vectors are no part of a dump here.
pub fn read(alloc: Global, net: &Net, text: &[u8]) -> Result<Wave, VcdFault>
    requires { length text.now ≤ most_text_bytes }
    ensures { MatchResult result (MeansAlone net.now (words_of text.now))
        (IsFaultOf net.now (words_of text.now)) }
{
    let mut words = Words::new(text);
    read_head(alloc, &mut words, net)?;
    let state = read_state(alloc, &mut words, net.len())?;
    let run = read_steps(alloc, &mut words, state.as_slice())?;
    Ok(Wave::of(state, run))
}

// Reads the state at the time 0.
fn read_state(alloc: Global, words: &mut Words<'_>, variables: u32) -> Result<Vec<bool>, VcdFault>
    requires { variables ≤ most_variables }
    ensures { MatchResult result (λ state. StateRead variables words.old words.new state.items)
        (Fails (all_words state_head (Values variables 0 [])) words.old) }
{
    expect_all(words, b"#0 $dumpvars")?;
    let state = read_values(alloc, words, variables)?;
    expect(words, b"$end")?;
    Ok(state)
}

// Reads the bits of all variables.
fn read_values(alloc: Global, words: &mut Words<'_>, variables: u32) -> Result<Vec<bool>, VcdFault>
    requires { variables ≤ most_variables }
    ensures { MatchResult result (λ state. AllRead variables words.old words.new state.items)
        (Fails (Values variables 0 []) words.old) }
{
    let mut state = Vec::new(alloc);
    for var in 0..variables {
        let bit = read_value(words, var)?;
        let Ok(()) = state.push(bit) else {
            return Err(VcdFault::Memory);
        };
    }
    Ok(state)
}

// Reads the bit of a variable.
fn read_value(words: &mut Words<'_>, var: u32) -> Result<bool, VcdFault>
    requires { var < most_variables }
    ensures { (variables : ℕ) (known : List Bool) → length known ≡ var → var < variables
        → ReadsValue variables var known words.old words.new result }
{
    let token = words.number();
    let Some(word) = words.next() else {
        return Err(VcdFault::Form { token });
    };
    let Some((bit, found)) = value_in(word) else {
        return Err(VcdFault::Form { token });
    };
    if found != var {
        return Err(VcdFault::Form { token });
    }
    Ok(bit)
}

// The bit and the variable of a word that gives a variable a bit.
fn value_in(word: &[u8]) -> Option<(bool, u32)>
    ensures { IsValueRead word.now result }
{
    match word {
        [first, code @ ..] => value_of(*first, code),
        [] => None,
    }
}

// The bit of a letter and the variable of a code.
fn value_of(first: u8, code: &[u8]) -> Option<(bool, u32)>
    ensures { IsValueRead (first ∷ code.now) result }
{
    let bit = bit_of(first)?;
    let var = read_code(code)?;
    Some((bit, var))
}

// The bit of a letter.
fn bit_of(letter: u8) -> Option<bool>
    ensures { IsBitRead letter result }
{
    match letter {
        b'0' => Some(false),
        b'1' => Some(true),
        _ => None,
    }
}

// Whether a word is that of a time.
fn is_time(word: &[u8], time: u32) -> bool
    ensures { MatchBool result (word.now ≡ time_word time) (word.now ≢ time_word time) }
{
    let mut digits = Buffer::new();
    is_time_of(word, digits.format(time).as_bytes())
}

// Whether a word is that of the time with these digits.
fn is_time_of(word: &[u8], digits: &[u8]) -> bool
    ensures { MatchBool result (word.now ≡ 35 ∷ digits.now) (word.now ≢ 35 ∷ digits.now) }
{
    match word {
        [first, rest @ ..] => is_time_by(*first, rest, digits),
        [] => false,
    }
}

// Whether a byte and the bytes behind it are the word of the time with these digits.
fn is_time_by(first: u8, rest: &[u8], digits: &[u8]) -> bool
    ensures { MatchBool result (first ∷ rest.now ≡ 35 ∷ digits.now)
        (first ∷ rest.now ≢ 35 ∷ digits.now) }
{
    first == b'#' && rest == digits
}

// Reads all steps from a state.
fn read_steps(alloc: Global, words: &mut Words<'_>, start: &[bool]) -> Result<Run, VcdFault>
    requires { length start.now ≤ most_variables }
    ensures { MatchResult result
        (λ run. Means (Steps (length start.now) start.now) words.old start.now run.steps)
        (Fails (Steps (length start.now) start.now) words.old) }
{
    let token = words.number();
    let Some(word) = words.next() else {
        return Ok(Run::new(alloc));
    };
    if start.is_empty() {
        return Err(VcdFault::Form { token });
    }
    if !is_time(word, 1) {
        return Err(VcdFault::Form { token });
    }
    let mut state = Vec::from_slice(alloc, start)?;
    let mut times = vec![in alloc; 0; start.len()]?;
    read_run(alloc, words, state.as_mut_slice(), times.as_mut_slice())
}

// Reads the steps of a run from a state, behind the word of the first time.
fn read_run(
    alloc: Global,
    words: &mut Words<'_>,
    state: &mut [bool],
    times: &mut [u32],
) -> Result<Run, VcdFault>
    requires few { length state.old ≤ most_variables }
    requires some { 0 < length state.old }
    requires times { length times.old ≡ length state.old }
    requires early { (var : ℕ) → slice_index_or times.old var 0 ≡ 0 }
    requires read { 1 ≤ words.old.read }
    ensures { MatchResult result
        (λ run. Means (Changes (length state.old) state.old [] []) words.old state.old run.steps)
        (Fails (Changes (length state.old) state.old [] []) words.old) }
{
    let mut flips = Vec::new(alloc);
    let mut run = Run::new(alloc);
    let mut time = 1;
    loop {
        let more = read_step(words, time, state, times, &mut flips)?;
        run.reserve(flips.len(), 1)?;
        run.push_step(flips.as_slice());
        if !more {
            return Ok(run);
        }
        flips.clear();
        time += 1;
    }
}

// Reads the changes of a step, and then the time of the next one; false if the words end in place of it.
fn read_step(
    words: &mut Words<'_>,
    time: u32,
    state: &mut [bool],
    times: &mut [u32],
    flips: &mut Vec<u32>,
) -> Result<bool, VcdFault>
    requires few { length state.old ≤ most_variables }
    requires some { 0 < length state.old }
    requires long { length times.old ≡ length state.old }
    requires fresh { AreAt time times.old [] }
    requires flips { flips.old.items ≡ [] }
    requires time { time ≤ words.old.read }
    ensures read { (start : List Bool) (done : List (List ℕ)) →
        All (AreFlips (length state.old)) done → end_of start done ≡ state.old
        → time ≡ length done + 1
        → MatchResult result
        (StepRead (length state.old) start done flips.new.items words.old words.new)
        (Fails (Changes (length state.old) start done []) words.old) }
    ensures state { OnOk result (state.new ≡ state_after flips.new.items state.old) }
    ensures times { OnOk result (AreAt time times.new flips.new.items) }
    ensures long { length times.new ≡ length times.old }
    ensures shorter { OnOk result (length words.new.words < length words.old.words) }
    ensures onward { OnOk result (time < words.new.read) }
    ensures bound { time ≤ most_text_bytes }
{
    loop {
        let token = words.number();
        let Some(word) = words.next() else {
            if flips.is_empty() {
                return Err(VcdFault::Form { token });
            }
            return Ok(false);
        };
        let Some(var) = change_in(word, time, state, times) else {
            if flips.is_empty() {
                return Err(VcdFault::Form { token });
            }
            if !is_time(word, time + 1) {
                return Err(VcdFault::Form { token });
            }
            return Ok(true);
        };
        state[var as usize] = !state[var as usize];
        times[var as usize] = time;
        let Ok(()) = flips.push(var) else {
            return Err(VcdFault::Memory);
        };
    }
}

// The variable that a word changes at a time, if it does, and if the variable was not changed at this time.
fn change_in(word: &[u8], time: u32, state: &[bool], times: &[u32]) -> Option<u32>
    requires few { length state.now ≤ most_variables }
    requires long { length times.now ≡ length state.now }
    ensures { IsChangeRead time state.now times.now word.now result }
{
    let (bit, var) = value_in(word)?;
    let index = var as usize;
    if index >= state.len() {
        return None;
    }
    if times[index] == time {
        return None;
    }
    if state[index] == bit {
        return None;
    }
    Some(var)
}
