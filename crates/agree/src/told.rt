// What is printed.
use answers::Refusal;
use state::{Party, Status};
use std::{fmt, io};

// Standard output, and the first line that failed to be written; nothing is written after that one. So the calls need no error of their own.
#[derive(Drop)]
pub(crate) struct Lines {
    to: HostRuntime,
    outcome: io::Result<()>,
}

impl Lines {
    pub(crate) fn new(to: HostRuntime) -> Self {
        Lines {
            to,
            outcome: Ok(()),
        }
    }

    pub(crate) fn line<D: fmt::Display + Drop>(&mut self, line: D) {
        if self.outcome.is_ok() {
            self.outcome = self.to.println(line);
        }
    }

    // Whether all was written.
    pub(crate) fn outcome(self) -> io::Result<()> {
        self.outcome
    }
}

// A call's answer behind a word, or its refusal.
#[derive(Drop)]
pub(crate) struct Told {
    pub(crate) word: &'static str,
    pub(crate) reply: Result<u8, Refusal>,
}

impl fmt::Display for Told {
    fn fmt<W: fmt::Write>(&self, f: &mut fmt::Formatter<W>) -> fmt::Result {
        match &self.reply {
            Ok(value) => write!(f, "{}{value}", self.word),
            Err(refusal) => write!(f, " refused {}", refusal.number()),
        }
    }
}

// A party's line: its number, status, own steps, and decision or a dash. The lister has one of a record's bytes, whose text is proved; this one is of a session's entry.
#[derive(Clone, Copy)]
pub(crate) struct Line {
    pub(crate) number: u32,
    pub(crate) party: Party,
}

impl fmt::Display for Line {
    fn fmt<W: fmt::Write>(&self, f: &mut fmt::Formatter<W>) -> fmt::Result {
        let Line { number, party } = *self;
        let status = Status::try_from(party.status).unwrap_or(Status::Stopped);
        let steps = party.steps;
        if status == Status::Decided {
            write!(f, "{number} {status} {steps} {}", party.decision)
        } else {
            write!(f, "{number} {status} {steps} -")
        }
    }
}
