// A variable of a network, as it is written and looked up.

ghost use Rattle.std.specs.Prelude.{◌≡◌, ◌<◌, length, IsTrue, IfSome};
ghost use Rattle.std.specs.List.{list_all};
ghost use Rattle.hz_line.specs.declared.bytes.Punctuation.TheVariants.{Open};
ghost use Rattle.hz_line.specs.Token.{PunctuationOf, tokens_of, with_token};
ghost use Rattle.hz_text.specs.Decimal.{is_digit, number_by};
ghost use Rattle.hz_run_text.specs.RunResolution.{wire_into, variable_named};
ghost use Rattle.hz_timing.specs.VariableRead.{IsPinAfter, IsVariableFirst, IsVariableAlone, HasDigits, variable_written};

use hz_core::MAX_PINS;
use hz_line::{Punctuation, first_punctuation, first_word, is_blank_line};
use hz_net::Net;
use hz_run_text::{is_decimal, number_within};

/// A variable as it is written: a node by its name, or a wire by the name of its gate and the number of its pin.
#[derive(Clone, Copy)]
pub(crate) enum Written<'a> {
    Node(&'a [u8]),
    Pin(&'a [u8], &'a [u8]),
}

// What stands after a name: no pin, what is none, or a pin with this number, and the line after it.
#[derive(Clone, Copy)]
enum PinAfter<'a> {
    Absent,
    Malformed,
    Pin(&'a [u8], &'a [u8]),
}

/// The variable with which a line begins that has tokens, and the line after it.
pub(crate) fn first_written<'a>(line: &'a [u8]) -> Option<(Written<'a>, &'a [u8])>
    ensures { IsVariableFirst line.now result }
{
    let (name, after) = first_word(line)?;
    match pin_after(after) {
        PinAfter::Absent => Some((Written::Node(name), after)),
        PinAfter::Malformed => None,
        PinAfter::Pin(number, rest) => Some((Written::Pin(name, number), rest)),
    }
}

/// The variable that a line with tokens has alone.
pub(crate) fn only_written(line: &[u8]) -> Option<Written>
    ensures { IsVariableAlone (tokens_of line.now) result }
{
    match first_written(line) {
        None => None,
        Some((written, rest)) if is_blank_line(rest) => Some(written),
        Some(_) => None,
    }
}

// The pin with which the line after a name begins.
fn pin_after<'a>(line: &'a [u8]) -> PinAfter<'a>
    ensures { IsPinAfter (tokens_of line.now) result }
{
    let Some((mark, after)) = first_punctuation(line) else {
        return PinAfter::Absent;
    };
    match mark {
        Punctuation::Open => pin_within(after),
        Punctuation::Close => PinAfter::Malformed,
        Punctuation::Comma => PinAfter::Malformed,
        Punctuation::Equals => PinAfter::Malformed,
    }
}

// The pin whose opening sign stands before this line.
fn pin_within<'a>(line: &'a [u8]) -> PinAfter<'a>
    ensures { IsPinAfter (with_token (PunctuationOf Open) (tokens_of line.now)) result }
{
    let Some((number, after)) = first_word(line) else {
        return PinAfter::Malformed;
    };
    let Some((mark, rest)) = first_punctuation(after) else {
        return PinAfter::Malformed;
    };
    match mark {
        Punctuation::Close if is_decimal(number) => PinAfter::Pin(number, rest),
        Punctuation::Close => PinAfter::Malformed,
        Punctuation::Open => PinAfter::Malformed,
        Punctuation::Comma => PinAfter::Malformed,
        Punctuation::Equals => PinAfter::Malformed,
    }
}

/// The variable of a network that is written so, if there is one.
pub(crate) fn variable_named(net: &Net, written: Written) -> Option<u32>
    requires { HasDigits written }
    ensures { result ≡ variable_named net.now (variable_written written.entry) }
{
    match written {
        Written::Node(name) => net.circuit().find(name),
        Written::Pin(name, number) => wire_into(net, net.circuit().find(name), number),
    }
}

// The wire into the pin with this number, counted from 1, of the node, if it is a gate with such a pin.
fn wire_into(net: &Net, node: Option<u32>, digits: &[u8]) -> Option<u32>
    requires node { IfSome node (λ node. node < length net.now.names) }
    requires digits { IsTrue (list_all is_digit digits.now) }
    ensures { result ≡ wire_into net.now node (number_by digits.now) }
{
    let node = node?;
    if node < net.circuit().inputs() {
        return None;
    }
    let pin = number_within(digits, MAX_PINS as u32)?;
    let (first, pins) = net.wires_in(node);
    if 1 <= pin && pin <= pins {
        Some(first + (pin - 1))
    } else {
        None
    }
}
