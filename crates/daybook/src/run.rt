//! A journal from its first line to its last.

ghost use Rattle.std.specs.Prelude.{◌≡◌, Ok};
ghost use Rattle.roster.specs.Rosters.{opening};
ghost use Rattle.session.specs.Gathering.{gathered, WhenOpened};

use crate::output::Output;
use day::{Answer, OpenDay, Reply};
use journal::{Line, Lines, located, read_line};
use outcomes::{Failure, Label, Reason};
use roster::Roster;
use session::{RecordPlaces, RosterLines, answer, outcome_of, post_all};
use std::alloc::Global;
use std::str::from_utf8;
use std::{fs, io};

// Goes through the lines until a day is opened, and leaves its roster and its places.
pub fn before_day<'j>(
    heap: Global,
    lines: &mut Lines<'j>,
    roster: &mut RosterLines<'j>,
    output: &mut Output,
) -> io::Result<Option<RecordPlaces>>
    ensures { WhenOpened result (opening (gathered roster.new) ≡ Ok tt) }
{
    for (number, line) in lines {
        match roster.take(heap, line) {
            Ok(None) => {}
            Ok(Some(places)) => {
                output.print_line(number, line, Ok(Reply::Taken))?;
                return Ok(Some(places));
            }
            Err(failure) => output.print_line(number, line, Err(failure))?,
        }
    }
    Ok(None)
}

// A journal that is run: where it lies, and what is printed of it.
#[derive(Drop)]
pub struct Journal<'r> {
    pub rt: &'r HostRuntime,
    pub path: &'r str,
    pub output: &'r mut Output,
}

impl Journal<'_> {
    // The bytes of a file that the journal names.
    fn read_file(&self, file: &[u8]) -> Result<Vec<u8>, Failure> {
        let path = located(self.rt.alloc(), self.path.as_bytes(), file)?;
        let path = from_utf8(path.as_slice()).map_err(|_| Reason::UnreadableFile)?;
        let text = fs::read(self.rt, path).map_err(|_| Reason::UnreadableFile)?;
        Ok(text)
    }

    // Posts the records of a file that the journal names.
    fn post_file(&self, day: &mut OpenDay<'_>, file: &[u8]) -> Result<Vec<Answer>, Failure> {
        let text = self.read_file(file)?;
        Ok(post_all(self.rt.alloc(), day, text.as_slice())?)
    }

    fn print_records(&mut self, number: u64, answers: &[Answer]) -> io::Result<()> {
        for (nth, answer) in (1..u64::MAX).zip(answers) {
            let outcome = outcome_of(*answer);
            self.output
                .print(Label::Record(number, nth), b"record", outcome)?;
        }
        Ok(())
    }

    // Makes the calls of one line of a day.
    fn run_line(&mut self, day: &mut OpenDay<'_>, number: u64, line: &[u8]) -> io::Result<()> {
        match read_line(line) {
            Ok(Line::Passed) => Ok(()),
            Ok(Line::Records(file)) => match self.post_file(day, file) {
                Ok(answers) => self.print_records(number, answers.as_slice()),
                Err(failure) => self.output.print_line(number, line, Err(failure)),
            },
            read => {
                let outcome = answer(self.rt.alloc(), day, read);
                self.output.print_line(number, line, outcome)
            }
        }
    }

    // Goes through the lines: first without a day, then with the day that one of them opened.
    pub fn run(&mut self, text: &[u8]) -> io::Result<()> {
        let heap = self.rt.alloc();
        let mut lines = Lines::new(text);
        let mut gathered = RosterLines::new(heap);
        let Some(mut places) = before_day(heap, &mut lines, &mut gathered, self.output)? else {
            return Ok(());
        };
        let roster = Roster::new(gathered.members.as_slice(), gathered.sites.as_slice());
        let mut day = OpenDay::open(roster, places.as_mut_slice());
        for (number, line) in lines {
            self.run_line(&mut day, number, line)?;
        }
        Ok(())
    }
}
