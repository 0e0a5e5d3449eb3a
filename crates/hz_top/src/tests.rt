//! Whole calls over files and a sink in memory, with ample memory: each put of each job fails in turn, and so do loads. What a job
//! prints on real files, and how it refuses them, stands in `tests/run`.

use super::{Status, run};
use hz_outside::{MemFiles, MemSink};
use std::alloc::Global;
use std::test::Fail;

// The files by their names: a multiplexer with a change of its selecting input, with two changes and with three, of which one changes
// nothing, two runs of it and two patterns, a latch with a change that it may settle in two ways, and a text that is no netlist.
const FILES: [(&str, &str); 9] = [
    (
        "n",
        "INPUT(s)\nINPUT(x)\nINPUT(y)\nn = NOT(s)\na = AND(s, x)\nb = AND(n, y)\nz = OR(a, b)\n",
    ),
    ("s", "start s=1 x=1 y=1\nchange s=0\n"),
    ("s2", "start s=1 x=1 y=1\nchange s=0\nchange x=0\n"),
    (
        "s3",
        "start s=1 x=1 y=1\nchange s=0\nchange\nchange s=1 y=0\n",
    ),
    (
        "r",
        "runs 1\nstart s=1 x=1 y=1 n=0 a=1 b=0 z=1\ninput s=0 x=1 y=1\nrun\nstep s\nstep n(1)\nstep n a(1)\n\
        run\nend\n",
    ),
    ("p", "from 111 to 011\nfrom 010 to 101\n"),
    (
        "latch",
        "INPUT(r)\nINPUT(s)\nq = NOR(r, qb)\nqb = NOR(s, q)\n",
    ),
    ("race", "start r=1 s=1\nchange r=0 s=0\n"),
    ("bad", "g = AND()\n"),
];

// More bytes than a put has.
const ALL: usize = 1_000_000;

fn files_of(alloc: Global) -> Result<MemFiles, Fail> {
    let mut files = MemFiles::new(alloc);
    for (name, text) in FILES {
        files.add(name, text.as_bytes())?;
    }
    Ok(files)
}

// The words of a line, which one space separates.
fn words_of(alloc: Global, line: &str) -> Result<Vec<String>, Fail> {
    let mut words = Vec::new(alloc);
    for word in line.split(' ') {
        words.push(String::from_str(alloc, word)?)?;
    }
    Ok(words)
}

// What fails: the load and the put of these numbers, of number 0 none. The put takes so many bytes of its piece.
#[derive(Clone, Copy)]
struct Failing {
    load: u64,
    put: u64,
    taken: usize,
}

const NOTHING: Failing = Failing {
    load: 0,
    put: 0,
    taken: 0,
};

// Calls the program with words.
fn call(alloc: Global, words: &[String], failing: Failing) -> Result<(Status, MemSink), Fail> {
    let mut files = files_of(alloc)?;
    files.fail(failing.load)?;
    let mut out = MemSink::new(alloc);
    out.fail(failing.put, failing.taken)?;
    let status = run(alloc, words, &mut files, &mut out);
    Ok((status, out))
}

// Each put of a job fails in turn, and takes at most so many bytes: what stands then is a front of the whole text.
fn fail_puts(alloc: Global, words: &[String], taken: usize, whole: &[u8]) -> Result<(), Fail> {
    let mut before = 0;
    for put in 1..1_000 {
        let failing = Failing {
            load: 0,
            put,
            taken,
        };
        let (status, out) = call(alloc, words, failing)?;
        match length_of_front(status, out.bytes(), before, taken, whole)? {
            Some(length) => before = length,
            None => return Ok(()),
        }
    }
    Err("many puts".into())
}

// How many bytes stand after a put that failed, or nothing if none did, where `before` bytes stood after the put before it.
fn length_of_front(
    status: Status,
    bytes: &[u8],
    before: usize,
    taken: usize,
    whole: &[u8],
) -> Result<Option<usize>, Fail> {
    if status != Status::Sink {
        return if bytes == whole {
            Ok(None)
        } else {
            Err("another text".into())
        };
    }
    if !whole.starts_with(bytes) {
        return Err("no front of the text".into());
    }
    if taken == ALL {
        is_of_one_line(bytes.get(before..).ok_or("less stands")?)?;
    }
    Ok(Some(bytes.len()))
}

// A piece that was put has no byte behind a line feed.
fn is_of_one_line(piece: &[u8]) -> Result<(), Fail> {
    match piece.split_last() {
        Some((_, front)) if front.contains(&b'\n') => Err("bytes of two lines".into()),
        _ => Ok(()),
    }
}

// A put that fails takes no byte, one byte, or all that it gets. If none does, the job has this exit code.
fn try_job(alloc: Global, line: &str, code: u8) -> Result<(), Fail> {
    let words = words_of(alloc, line)?;
    let (status, whole) = call(alloc, &words, NOTHING)?;
    if status.code() != code {
        return Err("another status".into());
    }
    for taken in [0, 1, ALL] {
        fail_puts(alloc, &words, taken, whole.bytes())?;
    }
    Ok(())
}

#[test]
fn each_put_fails(rt: HostRuntime) -> Result<(), Fail> {
    let rows = [
        ("analyse n s", 0),
        ("analyse n s2", 0),
        ("analyse n s3", 0),
        ("explore n s3", 0),
        ("explore latch race", 0),
        ("split latch race", 0),
        ("replay n r", 0),
        ("convert n r", 0),
        ("vcd n r", 0),
        ("batch n p", 0),
        ("reset n p", 0),
        ("demo 1", 0),
        ("analyse n", 2),
        ("analyse bad s", 3),
        ("replay n s", 4),
    ];
    for (line, code) in rows {
        try_job(rt.alloc(), line, code)?;
    }
    Ok(())
}

// With what fails, a job has this exit code, and what was put is this text; or, if a put fails, as many bytes off its front as that took.
fn try_failing(
    alloc: Global,
    line: &str,
    failing: Failing,
    code: u8,
    text: &[u8],
) -> Result<(), Fail> {
    let words = words_of(alloc, line)?;
    let (status, out) = call(alloc, &words, failing)?;
    if status.code() != code {
        return Err("another status".into());
    }
    let front = if failing.put == 0 {
        text
    } else {
        text.get(..failing.taken).ok_or("a short text")?
    };
    if out.bytes() != front {
        return Err("another text".into());
    }
    Ok(())
}

#[test]
fn loads_fail(rt: HostRuntime) -> Result<(), Fail> {
    const FIRST: &[u8] = b"refused: first file not read\n";
    const SECOND: &[u8] = b"refused: second file not read\n";
    const NETLIST: &[u8] = b"refused: netlist line 1: form\n";
    // a job, the number of the load that fails, of the put that fails, and the bytes that it takes; then the exit code and the text
    let rows = [
        ("analyse latch race", 1, 0, 0, 6, FIRST),
        ("analyse latch race", 2, 0, 0, 6, SECOND),
        ("analyse latch race", 2, 1, 0, 8, SECOND),
        ("analyse latch race", 2, 1, 3, 8, SECOND),
        ("replay n r", 2, 0, 0, 6, SECOND),
        ("batch n p", 2, 0, 0, 6, SECOND),
        ("reset n p", 1, 0, 0, 6, FIRST),
        ("analyse bad s", 2, 0, 0, 3, NETLIST),
        ("analyse bad s", 0, 1, 3, 8, NETLIST),
    ];
    for (line, load, put, taken, code, text) in rows {
        try_failing(rt.alloc(), line, Failing { load, put, taken }, code, text)?;
    }
    let words = words_of(rt.alloc(), "demo 1")?;
    let (_, whole) = call(rt.alloc(), &words, NOTHING)?;
    let failing = Failing {
        load: 1,
        put: 0,
        taken: 0,
    };
    try_failing(rt.alloc(), "demo 1", failing, 0, whole.bytes())
}
