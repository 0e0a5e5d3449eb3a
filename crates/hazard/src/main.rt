//! The program `hazard`: the words of the command line, the files of the file system, standard output.
#![tactic(auto)]

use hz_help::{read_words, tell, tell_wordless};
use hz_outside::{DiskFiles, Gathered, StdSink};
use hz_top::answer;
use std::process::ExitCode;

fn main(rt: HostRuntime) -> ExitCode {
    let words = match read_words(&rt) {
        Ok(words) => words,
        Err(error) => return tell_wordless(&rt, &error),
    };
    let mut files = DiskFiles::new(&rt);
    let mut out = Gathered::new(StdSink::new(&rt));
    let answer = answer(rt.alloc(), words.as_slice(), &mut files, &mut out);
    tell(&rt, &answer, files.first_lines());
    ExitCode::from(answer.status.code())
}
