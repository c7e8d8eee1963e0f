//! A commissioning day, told and played.
use crate::desk::{Desk, Manner};
use crate::lives::live;
use crate::source::{Item, Source};
use std::slice::Iter;

// A script. A line that begins with '=' is a sentence about the calls after it.
// kept: a script is lines of text; an enum would write its case before each of them.
static DAY: [&str; 104] = [
    "= The loop line on this site is old: of the first sendings on it, number 0 and number 4 get lost.",
    "line leaky 17",
    "= A store for six records and two loop cards. Record 1 is the index; both cards hold it in their place 0.",
    "make events 6 2 1 0 28800 1 1 6",
    "= Card 0: detector 17 in zone 4 reports a fault. The new record is number 2, and card 0 holds it in place 1.",
    "new 0 1 29000 17 4 2",
    "= What only a card holds is not kept for good, so card 0 hangs record 2 on link 0 of the index: look, note, store.",
    "look 0 0 0 1",
    "note 0",
    "store 0",
    "= The fault is acknowledged: record 3, hung on link 0 of record 2, so that what befalls one detector makes a chain.",
    "new 0 2 29060 17 4 4",
    "look 0 1 0 2",
    "note 0",
    "store 0",
    "= Card 1: a test of device 40 in zone 9 is record 4. It is hung on link 1 of the index.",
    "new 1 1 29500 40 9 3",
    "look 1 0 1 1",
    "note 1",
    "store 1",
    "= It was only a loose wire. Card 0 hangs record 3 straight on the index in place of record 2, and lets both go.",
    "look 0 0 0 2",
    "note 0",
    "store 0",
    "drop 0 1",
    "drop 0 2",
    "= Nothing leads to record 2 any more. The main processor opens a round to find that out; its first order is number 1.",
    "open",
    "= Order 1 says: put a mark on every record that you hang somewhere. The first knock at card 0 is lost on the line.",
    "knock 0",
    "attend 0",
    "= So it knocks again, and now card 0 answers. A lost order costs time and nothing else.",
    "knock 0",
    "attend 0",
    "hear 0",
    "= Card 1 obeys at once, but its reply is lost.",
    "knock 1",
    "attend 1",
    "hear 1",
    "= A second knock with the same number does no harm: the card has obeyed already and only says so again.",
    "knock 1",
    "attend 1",
    "hear 1",
    "= Order 2 says: before you change a record, keep a copy of its old links. That copy is the record's log.",
    "knock 0",
    "attend 0",
    "hear 0",
    "knock 1",
    "attend 1",
    "hear 1",
    "= In the middle of the round card 1 has news: device 40 is reset, record 5. It begins to hang it under record 4.",
    "new 1 2 29600 40 9 6",
    "look 1 1 0 2",
    "= Order 3 says: tell which records you hold. Card 0 does so, but card 1 has an update in hand and must not answer yet.",
    "knock 0",
    "attend 0",
    "hear 0",
    "knock 1",
    "attend 1",
    "= Card 1 ends its update first. Record 4 gets its log, and record 5 gets its mark, since it was hung during the round.",
    "note 1",
    "store 1",
    "drop 1 2",
    "= Now card 1 answers order 3, and the tracing can begin.",
    "attend 1",
    "hear 1",
    "= Card 0 takes record 3 into its place 3 and clears the link that led to it. It has told its places already, before this.",
    "load 0 0 0 3",
    "look 0 0 0 7",
    "note 0",
    "store 0",
    "= Tracing goes by the logs where there are any. So record 3 is found by the old link of the index, though the link is gone,",
    "= and record 5 by its mark, though the log of record 4 does not know it. Each record found is named; 0 means that is all.",
    "trace",
    "trace",
    "trace",
    "trace",
    "trace",
    "= Order 4 says: no more logs. Both cards obey.",
    "knock 0",
    "attend 0",
    "hear 0",
    "knock 1",
    "attend 1",
    "hear 1",
    "= Card 0 lets record 3 go, and nobody can reach it any more. But it was found in this round, so it stays until the next.",
    "drop 0 3",
    "= The sweep passes all six cells. Only record 2 is freed: no link led to it and no card held it when the round looked.",
    "sweep",
    "sweep",
    "sweep",
    "sweep",
    "sweep",
    "sweep",
    "= The round is closed, and all logs are wiped.",
    "settle",
    "= The freed cell is used again for the next event, but its old number never is: the new record is number 6.",
    "new 0 1 30000 21 4 3",
    "= The rest of the day is safe. The index still leads to the test of device 40,",
    "load 1 0 1 4",
    "read 1 4",
    "= and the test leads to the reset that came in the middle of the round.",
    "load 1 4 0 5",
    "read 1 5",
];

/// The day so far: the lines that are to come.
#[derive(Drop)]
struct Day {
    lines: Iter<'static, &'static str>,
}

impl Source for Day {
    fn next_item(&mut self) -> anyhow::Result<Option<Item<'_>>> {
        Ok(
            self.lines.next().map(|line| match line.strip_prefix("= ") {
                Some(sentence) => Item::Sentence(sentence),
                None => Item::Words(line),
            }),
        )
    }
}

/// Tells a commissioning day, and plays its calls as `play` does.
pub(crate) fn run_story(rt: &HostRuntime) -> anyhow::Result<()> {
    println!(rt;
        "A commissioning day. Each call stands with its answer after an arrow; 'refused' and a number says why not."
    )?;
    let manner = Manner::Story;
    live(Desk { rt, manner }, &mut Day { lines: DAY.iter() })
}
