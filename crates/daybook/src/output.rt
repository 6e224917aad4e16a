//! What is printed, and the count of it.

ghost use Rattle.std.specs.Prelude.{◌≡◌, IfErr};
ghost use Rattle.std.specs.IoError.{error_kind};
ghost use Rattle.std.specs.declared.io.ErrorKind.{ErrorKind};

use journal::split_word;
use outcomes::{Label, Outcome, Tally, report};
use std::alloc::Global;
use std::io;
use std::io::{BufWriter, Stdout, Write};

#[derive(Drop)]
pub struct Output {
    heap: Global,
    writer: BufWriter<Stdout>,
    tally: Tally,
}

impl Output {
    // It fails only where memory for the buffer is wanting.
    pub fn new(rt: &HostRuntime) -> io::Result<Output>
        ensures { IfErr result (λ e. error_kind e ≡ ErrorKind.OutOfMemory) }
    {
        let heap = rt.alloc();
        Ok(Output {
            heap,
            writer: BufWriter::new(heap, rt.stdout())?,
            tally: Tally::default(),
        })
    }

    pub fn print(&mut self, label: Label, word: &[u8], outcome: Outcome) -> io::Result<()> {
        self.tally.count(outcome);
        let line = report(self.heap, label, word, outcome)?;
        self.writer.write_all(line.as_slice())
    }

    // What became of a line, under its first word.
    pub fn print_line(&mut self, number: u64, line: &[u8], outcome: Outcome) -> io::Result<()> {
        let (word, _) = split_word(line);
        self.print(Label::Line(number), word, outcome)
    }

    pub fn finish(&mut self) -> io::Result<()> {
        let tally = self.tally;
        writeln!(self.writer, "{tally}")?;
        self.writer.flush()
    }
}
