use crate::input::{BadLine, Lines};
use anyhow::Context;
use contents::Contents;
use line::{Leaky, passes};
use octets::{Block, open_block};
use refusal::Refusal;
use sheet::{Fault, Value, effect_said, event_said, seal_values, value_at};
use std::fmt;

// Sendings 0 and 2 of every 32 are lost.
const PATTERN: u32 = 5;
// With any bit of the pattern 0, a number arrives within 32 tries.
const TRIES: u32 = 32;

// So many values stand in a block.
const IN_A_BLOCK: usize = 18;

/// Why words say no value.
#[derive(Clone, Copy)]
enum Unused {
    Faulty(Fault),
    NotUnderstood,
}

impl fmt::Display for Unused {
    fn fmt<W: fmt::Write>(&self, f: &mut fmt::Formatter<W>) -> fmt::Result {
        match self {
            Unused::Faulty(fault) => write!(f, "{fault}"),
            Unused::NotUnderstood => write!(f, "not understood"),
        }
    }
}

impl From<Fault> for Unused {
    fn from(fault: Fault) -> Unused {
        Unused::Faulty(fault)
    }
}

/// Reads a commissioning sheet, seals its values into blocks, reads them back, and sends their number over a leaky line.
pub(crate) fn run_sheet(rt: &HostRuntime) -> anyhow::Result<()> {
    let mut sheet = Sheet {
        rt,
        values: Vec::new(rt.alloc()),
    };
    let mut lines = Lines::new(rt)?;
    // kept: a loop over input has no measure but a count, and the kit's iterators over lines hold a line of any length
    for _ in 0..u64::MAX {
        let Some((number, line)) = lines.next_line()? else {
            break;
        };
        sheet.take_line(number, line)?;
    }
    sheet.seal_all()?;
    sheet.send_count()
}

/// The values of a sheet, and where is told what becomes of them.
#[derive(Drop)]
struct Sheet<'a> {
    rt: &'a HostRuntime,
    values: Vec<Value>,
}

impl Sheet<'_> {
    fn take_line(&mut self, number: u64, line: Result<&str, BadLine>) -> anyhow::Result<()> {
        match line {
            Ok(text) => self.take_text(number, text)?,
            Err(bad) => println!(self.rt; "line {number}: {bad}")?,
        }
        Ok(())
    }

    fn take_text(&mut self, number: u64, text: &str) -> anyhow::Result<()> {
        let words: Vec<&str> = text.split_whitespace().collect(self.rt.alloc())?;
        if words.is_empty() {
            return Ok(());
        }
        match value_said(words.as_slice()) {
            Ok(value) => {
                tell_form(self.rt, number, &value)?;
                self.values.push(value)?;
            }
            Err(unused) => println!(self.rt; "line {number}: {unused}")?,
        }
        Ok(())
    }

    // Seals the values, and reads each block back. The numbers of the blocks begin again after 65,535.
    fn seal_all(&self) -> anyhow::Result<()> {
        for (number, part) in self.values.chunks(IN_A_BLOCK).enumerate() {
            let number = (number & 0xffff) as u16;
            let mut bytes = [0u8; 512];
            match sealed(&mut bytes, number, part) {
                Ok(block) => tell_block(self.rt, block)?,
                Err(refusal) => println!(self.rt; "block {number}: {refusal}")?,
            }
        }
        Ok(())
    }

    // Sends the number of values to card 0 until it arrives.
    fn send_count(&self) -> anyhow::Result<()> {
        let count = u32::try_from(self.values.len());
        let number = count.ok().context("more values than a line can tell")?;
        let mut line = Leaky::new(PATTERN);
        match (0..TRIES).find(|_| passes(&mut line, 0, number)) {
            Some(lost) => println!(self.rt;
                "sent {number} to card 0 over a leaky line: sendings lost {lost}, then it arrived"
            )?,
            None => println!(self.rt;
                "sent {number} to card 0 over a leaky line: all {TRIES} sendings lost"
            )?,
        }
        Ok(())
    }
}

fn value_said(words: &[&str]) -> Result<Value, Unused> {
    match words {
        ["event", moment, device, zone, kind] => {
            Ok(Value::Happened(event_said(moment, device, zone, kind)?))
        }
        ["effect", relay, delay] => Ok(Value::Does(effect_said(relay, delay)?)),
        _ => Err(Unused::NotUnderstood),
    }
}

fn tell_form(rt: &HostRuntime, number: u64, value: &Value) -> anyhow::Result<()> {
    let form = match value {
        Value::Happened(event) => event.form(),
        Value::Does(effect) => effect.form(),
    };
    print!(rt; "line {number}: {value}, form ")?;
    for byte in form {
        print!(rt; "{byte:02x}")?;
    }
    println!(rt; "")?;
    Ok(())
}

// The block of these values and the check at its end.
fn sealed<'a>(
    bytes: &'a mut [u8; 512],
    number: u16,
    values: &[Value],
) -> Result<(Block<'a>, u32), Refusal> {
    seal_values(bytes, number, values)?;
    let [.., a, b, c, d] = *bytes;
    let check = u32::from_le_bytes([a, b, c, d]);
    Ok((open_block(bytes)?, check))
}

fn tell_block(rt: &HostRuntime, (block, check): (Block<'_>, u32)) -> anyhow::Result<()> {
    let number = block.number;
    let count = block.count;
    println!(rt; "block {number}: values {count}, check {check}")?;
    // kept: `value_at` reads a value of a block by its number, so a range of numbers is the plainest
    for k in 0..usize::from(count) {
        match value_at(block.body, k) {
            Some(value) => println!(rt; "  {k} {value}")?,
            None => println!(rt; "  {k} is no value")?,
        }
    }
    Ok(())
}
