//! Where the lines of a script come from.
use crate::input::{BadLine, Lines};

/// What a source gives.
#[derive(Clone, Copy)]
pub enum Item<'a> {
    /// A line of a script.
    Words(&'a str),
    /// A sentence to be told.
    Sentence(&'a str),
    /// The line of this number cannot be used.
    Bad(u64, BadLine),
}

pub trait Source {
    /// The next item, or none where there is no more.
    fn next_item(&mut self) -> anyhow::Result<Option<Item<'_>>>;
}

impl Source for Lines {
    fn next_item(&mut self) -> anyhow::Result<Option<Item<'_>>> {
        Ok(
            self.next_line()?.map(|(number, line)| match line {
                Ok(text) => Item::Words(text),
                Err(bad) => Item::Bad(number, bad),
            }),
        )
    }
}
