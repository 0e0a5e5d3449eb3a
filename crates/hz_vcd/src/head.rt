//! Reading the head of a dump.
ghost use Rattle.std.specs.Prelude.{◌≡◌, ◌≢◌, ◌<◌, ◌≤◌, [], IfOk, MatchBool};
ghost use Rattle.std.specs.List.{flat_map, range_with_len};
ghost use Rattle.hz_core.specs.Limits.{most_variables};
ghost use Rattle.hz_write.specs.Writes.{Wrote};
ghost use Rattle.hz_vcd.specs.Word.{words_of};
ghost use Rattle.hz_vcd.specs.Dump.{variables_of, declaration_of, head_places, OpensBlock};
ghost use Rattle.hz_vcd.specs.Printed.{declaration_line};
ghost use Rattle.hz_vcd.specs.Reading.{Ending, Goes, Reads, Word, BlockEnd, Blocks, all_words, all_places};

use crate::fault::VcdFault;
use crate::words::{Words, first_word};
use crate::writing::write_declaration;
use hz_core::Memory;
use hz_net::Net;
use hz_outside::{PlainSink, PutFault, Sink};
use hz_write::Writer;
use std::alloc::Global;

/// Reads this word.
pub(crate) fn expect(words: &mut Words<'_>, wanted: &[u8]) -> Result<(), VcdFault>
    ensures { (next : Ending) → Goes next []
        → Reads (Word wanted.now next) words.old next words.new result }
{
    let token = words.number();
    let Some(word) = words.next() else {
        return Err(VcdFault::Form { token });
    };
    if word != wanted {
        return Err(VcdFault::Form { token });
    }
    Ok(())
}

/// Reads each word of a text.
pub(crate) fn expect_all(words: &mut Words<'_>, text: &[u8]) -> Result<(), VcdFault>
    ensures { (next : Ending) → Goes next []
        → Reads (all_words (words_of text.now) next) words.old next words.new result }
{
    let mut left = text;
    while let Some((word, rest)) = first_word(left) {
        expect(words, word)?;
        left = rest;
    }
    Ok(())
}

// Whether these are the same words.
fn is_word(word: &[u8], wanted: &[u8]) -> bool
    ensures { MatchBool result (word.now ≡ wanted.now) (word.now ≢ wanted.now) }
{
    word == wanted
}

// Reads the rest of a block.
fn read_block(words: &mut Words<'_>) -> Result<(), VcdFault>
    ensures { (next : Ending) → Goes next []
        → Reads (BlockEnd next) words.old next words.new result }
{
    loop {
        let token = words.number();
        let Some(word) = words.next() else {
            return Err(VcdFault::Form { token });
        };
        if is_word(word, b"$end") {
            return Ok(());
        }
    }
}

// Whether a word opens a block.
fn opens_block(word: &[u8]) -> bool
    ensures { MatchBool result (OpensBlock word.now) (¬ OpensBlock word.now) }
{
    word == b"$date".as_slice() || word == b"$version".as_slice() || word == b"$comment".as_slice()
}

// Reads any number of blocks, and then this word.
fn expect_after_blocks(words: &mut Words<'_>, wanted: &[u8]) -> Result<(), VcdFault>
    requires { ¬ OpensBlock wanted.now }
    ensures { (next : Ending) → Goes next []
        → Reads (Blocks wanted.now next) words.old next words.new result }
{
    loop {
        let token = words.number();
        let Some(word) = words.next() else {
            return Err(VcdFault::Form { token });
        };
        if word == wanted {
            return Ok(());
        }
        if !opens_block(word) {
            return Err(VcdFault::Form { token });
        }
        read_block(words)?;
    }
}

// Reads the words of a command, behind any number of blocks.
fn expect_command(words: &mut Words<'_>, first: &[u8], later: &[u8]) -> Result<(), VcdFault>
    requires { ¬ OpensBlock first.now }
    ensures { (next : Ending) → Goes next []
        → Reads (Blocks first.now (all_words (words_of later.now) next)) words.old next words.new
        result }
{
    expect_after_blocks(words, first)?;
    expect_all(words, later)
}

// The line that declares a variable.
fn declaration(alloc: Global, net: &Net, var: u32) -> Result<Vec<u8>, Memory>
    requires var { var < variables_of net.now }
    requires few { variables_of net.now ≤ most_variables }
    ensures { IfOk result (λ line. line.items ≡ declaration_line net.now var) }
{
    let mut sink = PlainSink::new(alloc);
    match put_declaration(&mut sink, net, var) {
        Ok(()) => Ok(sink.into_bytes()),
        Err(_) => Err(Memory),
    }
}

// Puts the line that declares a variable.
fn put_declaration<K: Sink>(out: &mut K, net: &Net, var: u32) -> Result<(), PutFault>
    requires var { var < variables_of net.now }
    requires few { variables_of net.now ≤ most_variables }
    ensures { Wrote K.output K.faults (declaration_line net.now var) out.old out.new result }
{
    let mut writer = Writer::new(out);
    write_declaration(&mut writer, net, var);
    writer.finish()
}

// Reads the declarations of all variables.
fn read_declarations(alloc: Global, words: &mut Words<'_>, net: &Net) -> Result<(), VcdFault>
    ensures { (next : Ending) → Goes next []
        → Reads
        (all_words (flat_map (declaration_of net.now) (range_with_len 0 (variables_of net.now)))
        next)
        words.old next words.new result }
{
    for var in 0..net.len() {
        let line = declaration(alloc, net, var)?;
        expect_all(words, line.as_slice())?;
    }
    Ok(())
}

/// Reads the head of a dump of a network.
pub(crate) fn read_head(alloc: Global, words: &mut Words<'_>, net: &Net) -> Result<(), VcdFault>
    ensures { (next : Ending) → Goes next []
        → Reads (all_places (head_places net.now) next) words.old next words.new result }
{
    expect_command(words, b"$timescale", b"1 ns $end")?;
    expect_command(words, b"$scope", b"module hazard $end")?;
    read_declarations(alloc, words, net)?;
    expect_command(words, b"$upscope", b"$end")?;
    expect_command(words, b"$enddefinitions", b"$end")
}
