//! The program of the tests, started again.

use std::io::Write;
use std::process::{Child, Command, Stdio};
use std::{env, fs, io};

/// What a test's process prints after all that the test itself prints.
const BEHIND: &str = "\ntest result: ok\n";

/// Writes the status to the file that the first word after the test's name names: what runs a test passes on no status of its own.
pub fn say_status(rt: HostRuntime, status: u8) -> io::Result<()> {
    match env::args(&rt)?.nth(2) {
        Some(said) => fs::write(&rt, said, &[status]),
        None => Ok(()),
    }
}

/// What a process printed, but for what is printed after all that the test itself prints.
pub fn own(printed: &[u8]) -> &[u8] {
    match printed.strip_suffix(BEHIND.as_bytes()) {
        Some(own) => own,
        None => printed,
    }
}

/// The program of the tests that run now.
#[derive(Clone, Copy)]
pub struct Program {
    pub rt: HostRuntime,
    /// The test that does what the words after the next one say. The next one names the file to which its status is written.
    pub by_words: &'static str,
}

impl Program {
    /// Starts a process by a command, with these words after the test's name.
    fn spawn(&self, command: &mut Command, said: &str, words: &[&str]) -> io::Result<Child> {
        let _ = fs::remove_file(&self.rt, said);
        command
            .arg(self.by_words)?
            .arg(said)?
            .args(words)?
            .stdin(Stdio::piped())
            .stdout(Stdio::piped())
            .spawn(&self.rt)
    }

    /// Starts a process with these words, which reads nothing yet.
    fn spawn_alone(&self, said: &str, words: &[&str]) -> io::Result<Child> {
        let program = env::current_exe(&self.rt)?;
        let mut command = Command::new(self.rt.alloc(), program)?;
        self.spawn(&mut command, said, words)
    }

    /// Starts a process by a shell, with the words of this text, which may close streams too. `$PORT` is the port. It reads nothing yet.
    fn spawn_by_shell(&self, said: &str, text: &str, port: u16) -> io::Result<Child> {
        let alloc = self.rt.alloc();
        let program = env::current_exe(&self.rt)?;
        let script = format!(in alloc; "PORT={port}; exec \"$0\" \"$@\" {text}")?;
        let mut command = Command::new(alloc, "/bin/sh")?;
        command.arg("-c")?.arg(script)?.arg(program)?;
        self.spawn(&mut command, said, &[])
    }

    /// Starts a process with these words, which reads this input to its end.
    pub fn start(&self, said: &str, words: &[&str], input: &str) -> io::Result<Child> {
        let mut process = self.spawn_alone(said, words)?;
        feed(&mut process, input);
        Ok(process)
    }

    /// Starts a process by a shell, with the words of this text, which may close streams too. `$PORT` is the port. It reads this input to
    /// its end.
    pub fn start_by_shell(
        &self,
        said: &str,
        text: &str,
        port: u16,
        input: &str,
    ) -> io::Result<Child> {
        let mut process = self.spawn_by_shell(said, text, port)?;
        feed(&mut process, input);
        Ok(process)
    }

    /// Reads the status that a process has written to the file, which is removed.
    pub fn said(&self, said: &str) -> io::Result<Option<u8>> {
        let status = fs::read(&self.rt, said)?;
        fs::remove_file(&self.rt, said)?;
        Ok(status.first().copied())
    }

    /// Waits for the end of a process: its status, and all that it prints.
    pub fn end(&self, said: &str, process: Child) -> io::Result<(Option<u8>, Vec<u8>)> {
        let output = process.wait_with_output(self.rt.alloc())?;
        Ok((self.said(said)?, output.stdout))
    }
}

/// Lets a process read the input to its end. One whose input is closed reads nothing.
fn feed(process: &mut Child, input: &str) {
    if let Some(mut stdin) = process.stdin.take() {
        let _ = stdin.write_all(input.as_bytes());
    }
}
