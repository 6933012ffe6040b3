// What the programs use of the system.
use std::io::Stderr;
use std::rt::{Env, Files};

// Arguments, files, standard input and output; and standard error for messages, as bytes, since a file's name need not be text.
pub trait Host: Env + Files + Input + Print + Eprint {
    // A message, or a part of one. What standard error does not take is lost.
    fn tell(&self, text: &[u8]);
}

impl Host for HostRuntime {
    fn tell(&self, text: &[u8]) {
        let stderr: Stderr = self.stderr();
        let _ = Print::write_all(&stderr, text);
    }
}
