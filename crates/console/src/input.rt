//! Lines of standard input, however long they are and whatever bytes they hold.
use std::fmt;
use std::io::{BufRead, BufReader, Read, Stdin};

// Longer lines are told and passed over.
const LONGEST: usize = 400;

// So many bytes of what is left of a line are passed over at once.
const PIECE: u64 = 4096;

/// Why a line is passed over.
#[derive(Clone, Copy, PartialEq, Eq, Debug)]
pub enum BadLine {
    TooLong,
    NotText,
}

impl fmt::Display for BadLine {
    fn fmt<W: fmt::Write>(&self, f: &mut fmt::Formatter<W>) -> fmt::Result {
        match self {
            BadLine::TooLong => write!(f, "too long, passed over"),
            BadLine::NotText => write!(f, "not text, passed over"),
        }
    }
}

/// The lines of standard input. Once a line had no end there is no more input.
#[derive(Drop)]
pub struct Lines {
    input: Option<BufReader<Stdin>>,
    bytes: Vec<u8>,
    number: u64,
}

impl Lines {
    pub(crate) fn new(rt: &HostRuntime) -> anyhow::Result<Self> {
        Ok(Lines {
            input: Some(BufReader::new(rt.alloc(), rt.stdin())?),
            bytes: Vec::new(rt.alloc()),
            number: 0,
        })
    }

    // The next line with its number, or none at the end. Of a line that is too long no more than its beginning is kept.
    pub(crate) fn next_line(&mut self) -> anyhow::Result<Option<(u64, Result<&str, BadLine>)>> {
        self.bytes.clear();
        let Some(input) = &mut self.input else {
            return Ok(None);
        };
        let mut beginning = input.by_ref().take(LONGEST as u64 + 1);
        if beginning.read_until(b'\n', &mut self.bytes)? == 0 {
            return Ok(None);
        }
        self.number = self.number.saturating_add(1);
        let ended = self.bytes.pop_if(|byte| *byte == b'\n').is_some();
        if self.bytes.len() > LONGEST {
            if !has_end(input, &mut self.bytes)? {
                self.input = None;
            }
            return Ok(Some((self.number, Err(BadLine::TooLong))));
        }
        if !ended {
            self.input = None;
        }
        Ok(Some((self.number, text_of(self.bytes.as_slice()))))
    }
}

// Passes over what is left of a line, piece by piece; answers whether the line has an end. Input that has none is not
// asked again, since a terminal would wait for more.
fn has_end(input: &mut BufReader<Stdin>, piece: &mut Vec<u8>) -> anyhow::Result<bool> {
    // kept: a loop over input has no measure but a count
    for _ in 0..u64::MAX {
        piece.clear();
        let read = input.by_ref().take(PIECE).read_until(b'\n', piece)?;
        if piece.last() == Some(&b'\n') {
            return Ok(true);
        }
        if (read as u64) < PIECE {
            return Ok(false);
        }
    }
    Ok(false)
}

// What stands before a '#', as text.
fn text_of(bytes: &[u8]) -> Result<&str, BadLine> {
    let text = std::str::from_utf8(bytes).map_err(|_| BadLine::NotText)?;
    Ok(text.split_once('#').map_or(text, |(before, _)| before))
}
