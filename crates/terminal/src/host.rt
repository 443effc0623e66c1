// What the programs need of the system that runs them.
use std::io;
use std::rt::{Env, Files};

pub trait Terminal: Files + Env + Input + Print + Alloc {
    // All of the bytes on standard error. They need not be text: a path stands in them as it was given.
    fn warn(&self, bytes: &[u8]) -> io::Result<()>;
}

impl Terminal for HostRuntime {
    fn warn(&self, bytes: &[u8]) -> io::Result<()> {
        Print::write_all(&self.stderr(), bytes)
    }
}
