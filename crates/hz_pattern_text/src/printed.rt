// The first lines of a text of patterns, where they are as they are printed. By the tokens of each line, `batch` on an adder of 32 bits
// takes 186 million instructions in place of 72.

ghost use Rattle.std.specs.Prelude.{◌≡◌, ◌+◌, ◌-◌, ◌*◌, ◌^◌, ◌<◌, ◌≤◌, ◌⊎◌, ◌++◌, ◌&&◌, [], true, nat_eq, length, take, drop, map, replicate, IfOk, OnOk};
ghost use Rattle.hz_pattern_text.specs.PatternModel.{AgreesWith, agrees, slack_by, bits_at, model_line, model_lines, AreAddedBits, text_behind};
ghost use Rattle.hz_pattern_text.specs.PatternReading.{AreZeroLines, AreCounted};

use crate::value::MAX_PATTERNS;
use hz_core::Memory;
use std::alloc::Global;

// How many bytes are compared at once, if a line is shorter.
const BLOCK_BYTES: usize = 4096;

// The patterns of the first lines of a text: how many they are, and their bits.
#[derive(Drop)]
pub(crate) struct Front {
    pub(crate) count: usize,
    pub(crate) bits: Vec<bool>,
}

// Lines in which all bits are 0, with which other lines are compared: how many they are, their bytes, and how much greater a
// byte may be that agrees with each.
#[derive(Drop)]
pub(crate) struct ZeroLines {
    lines: usize,
    model: Vec<u8>,
    slack: Vec<u8>,
}

// Lines of so many inputs in which all bits are 0: as many as a block has room for, and at least one.
pub(crate) fn zero_lines(alloc: Global, inputs: usize) -> Result<ZeroLines, Memory>
    requires few { inputs < 2 ^ 32 }
    ensures { IfOk result (AreZeroLines inputs) }
{
    let lines = (BLOCK_BYTES / (10 + 2 * inputs)).max(1);
    let model = model_of(alloc, inputs, lines)?;
    let slack = slack_of(alloc, model.as_slice())?;
    Ok(ZeroLines {
        lines,
        model,
        slack,
    })
}

// Takes the lines that are as they are printed off the front of a text, and returns how many bytes they have. There is at least
// one input. If memory runs out, no pattern is left.
pub(crate) fn take_lines(
    front: &mut Front,
    zeros: &ZeroLines,
    inputs: usize,
    text: &[u8],
) -> Result<usize, Memory>
    requires few { inputs < 2 ^ 32 }
    requires some { 1 ≤ inputs }
    requires zeros { AreZeroLines inputs zeros.now }
    requires counted { AreCounted inputs front.old }
    ensures counted { AreCounted inputs front.new }
    ensures inside { IfOk result (λ taken. taken ≤ length text.now) }
    ensures whole { IfOk result (λ taken. taken ≡ 0 ⊎ 10 + 2 * inputs ≤ taken) }
    ensures behind { IfOk result
        (λ taken. text_behind inputs front.new.count front.new.bits.items (drop taken text.now)
        ≡ text_behind inputs front.old.count front.old.bits.items text.now) }
{
    let width = 10 + 2 * inputs;
    let most = (text.len() / width).min(MAX_PATTERNS - front.count);
    let Ok(count) = push_front(&mut front.bits, zeros, inputs, text, most) else {
        front.bits.clear();
        front.count = 0;
        return Err(Memory);
    };
    front.count += count;
    Ok(count * width)
}

// Adds the bits of the first lines of a text that are as they are printed, so many at most, and returns how many they are.
// They have one length, so blocks of lines are compared with lines of zeros, up to the first block with another line.
fn push_front(
    bits: &mut Vec<bool>,
    zeros: &ZeroLines,
    inputs: usize,
    text: &[u8],
    most: usize,
) -> Result<usize, Memory>
    requires few { inputs < 2 ^ 32 }
    requires some { 1 ≤ inputs }
    requires zeros { AreZeroLines inputs zeros.now }
    requires room { most * (10 + 2 * inputs) ≤ length text.now }
    ensures count { IfOk result (λ count. count ≤ most) }
    ensures added { IfOk result
        (λ count. AreAddedBits inputs count bits.old.items bits.new.items
        (take (count * (10 + 2 * inputs)) text.now)) }
{
    let width = 10 + 2 * inputs;
    bits.reserve(most * (2 * inputs))?;
    let mut ones = Vec::new(*bits.allocator());
    let mut start = 0;
    while start < most {
        let end = start + zeros.lines.min(most - start);
        let block = &text[start * width..end * width];
        if !agree(block, zeros.model.as_slice(), zeros.slack.as_slice()) {
            return Ok(start);
        }
        mark_ones(&mut ones, block)?;
        push_lines(bits, ones.as_slice(), inputs, end - start)?;
        start = end;
    }
    Ok(start)
}

// So many lines in which all bits are 0.
fn model_of(alloc: Global, inputs: usize, lines: usize) -> Result<Vec<u8>, Memory>
    ensures { IfOk result (λ model. model.items ≡ model_lines inputs lines) }
{
    let mut model = Vec::new(alloc);
    for _line in 0..lines {
        push_line(&mut model, inputs)?;
    }
    Ok(model)
}

// Adds such a line.
fn push_line(model: &mut Vec<u8>, inputs: usize) -> Result<(), Memory>
    ensures { OnOk result (model.new.items ≡ model.old.items ++ model_line inputs []) }
{
    model.extend_from_slice(b"from ")?;
    push_zeros(model, inputs)?;
    model.extend_from_slice(b" to ")?;
    push_zeros(model, inputs)?;
    model.extend_from_slice(b"\n")?;
    Ok(())
}

// Adds so many letters of bits that are 0.
fn push_zeros(model: &mut Vec<u8>, inputs: usize) -> Result<(), Memory>
    ensures { OnOk result (model.new.items ≡ model.old.items ++ replicate inputs 48) }
{
    let Some(len) = model.len().checked_add(inputs) else {
        return Err(Memory);
    };
    model.resize(len, b'0')?;
    Ok(())
}

// For each byte of a model how much greater a byte may be that agrees with it.
fn slack_of(alloc: Global, model: &[u8]) -> Result<Vec<u8>, Memory>
    ensures { IfOk result (λ slack. slack.items ≡ map slack_by model.now) }
{
    let mut slack = Vec::new(alloc);
    slack.extend(model.iter().map(|byte| slack_by(*byte)))?;
    Ok(slack)
}

// A letter of a bit may be `1` in place of `0`.
fn slack_by(byte: u8) -> u8
    ensures { result ≡ slack_by byte }
{
    if byte == b'0' { 1 } else { 0 }
}

// Whether bytes are those of a model, but for ones in place of zeros. It looks at all of them, so that many are compared at once.
fn agree(bytes: &[u8], model: &[u8], slack: &[u8]) -> bool
    requires fits { length bytes.now ≤ length model.now }
    requires slack { slack.now ≡ map slack_by model.now }
    ensures { result ≡ true → AgreesWith bytes.now model.now }
{
    let mut most = 0;
    for i in 0..bytes.len() {
        most = farther(most, bytes[i], model[i], slack[i]);
    }
    most == 0
}

// The greater one of a distance and of a byte's distance from those that agree with the model's byte.
#[inline(always)]
fn farther(most: u8, byte: u8, model: u8, slack: u8) -> u8
    requires { slack ≡ slack_by model }
    ensures { nat_eq result 0 ≡ (nat_eq most 0 && agrees byte model) }
{
    most.max(byte.wrapping_sub(model).saturating_sub(slack))
}

// Lists for each byte whether it is the letter of a bit that is 1.
fn mark_ones(ones: &mut Vec<bool>, bytes: &[u8]) -> Result<(), Memory>
    ensures { OnOk result (ones.new.items ≡ map (λ byte. nat_eq byte 49) bytes.now) }
{
    ones.clear();
    ones.extend(bytes.iter().map(|byte| *byte == b'1'))?;
    Ok(())
}

// Adds the bits of so many lines, whose letters are listed.
#[inline(never)]
fn push_lines(
    bits: &mut Vec<bool>,
    ones: &[bool],
    inputs: usize,
    lines: usize,
) -> Result<(), Memory>
    requires { length ones.now ≡ lines * (10 + 2 * inputs) }
    ensures { OnOk result (bits.new.items ≡ bits.old.items ++ bits_at inputs lines ones.now) }
{
    for line in 0..lines {
        let from = line * (10 + 2 * inputs) + 5;
        let to = from + inputs + 4;
        bits.extend_from_slice(&ones[from..from + inputs])?;
        bits.extend_from_slice(&ones[to..to + inputs])?;
    }
    Ok(())
}
