use std::fmt::Display;

/// How answers are told.
#[derive(Clone, Copy, PartialEq, Eq, Debug)]
pub enum Manner {
    /// A line to each.
    Lines,
    /// As a story, in which the calls of one sentence have one line.
    Story,
}

impl Manner {
    // What stands before an answer.
    pub(crate) fn lead(self) -> &'static str {
        match self {
            Manner::Lines => "",
            Manner::Story => "    ",
        }
    }

    // What stands between calls that are answered together.
    pub(crate) fn parting(self) -> &'static str {
        match self {
            Manner::Lines => "\n",
            Manner::Story => "; ",
        }
    }
}

/// Where answers are printed, and how.
#[derive(Clone, Copy)]
pub struct Desk<'a> {
    pub(crate) rt: &'a HostRuntime,
    pub(crate) manner: Manner,
}

impl Desk<'_> {
    // The words of a line and what is answered to it.
    pub(crate) fn answer<T: Display + Drop>(&self, words: &str, answer: T) -> anyhow::Result<()> {
        let lead = self.manner.lead();
        println!(self.rt; "{lead}{words} -> {answer}")?;
        Ok(())
    }
}
