//! The words of the command line. No contract speaks of them.

use std::env::{Env, FillError};
use std::{env, io};

/// What stands behind the program's name among the arguments. So that name may be any bytes.
#[derive(Drop)]
struct BehindName<'r> {
    rt: &'r HostRuntime,
}

impl Env for BehindName<'_> {
    fn arg(&self, i: usize, buf: &mut [u8]) -> Result<usize, FillError> {
        match i.checked_add(1) {
            Some(next) => self.rt.arg(next, buf),
            None => Err(FillError::NotPresent),
        }
    }

    fn var(&self, name: &str, buf: &mut [u8]) -> Result<usize, FillError> {
        self.rt.var(name, buf)
    }

    fn var_at(&self, i: usize, buf: &mut [u8]) -> Result<usize, FillError> {
        self.rt.var_at(i, buf)
    }
}

/// The words after the program's name.
pub fn read_words(rt: &HostRuntime) -> io::Result<Vec<String>> {
    let words: Vec<String> = env::args(&(BehindName { rt }, rt.alloc()))?.collect(rt.alloc())?;
    Ok(words)
}
