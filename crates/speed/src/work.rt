use contents::Effect;
use line::Direct;
use std::iter::successors;
use std::time::Instant;
use store::Store;

/// So many calls are made by `card_calls`.
pub(crate) const CARD_CALLS: u64 = 5000;

/// What is measured: a store and the line to its cards.
#[derive(Drop)]
pub(crate) struct Site<'a> {
    pub(crate) store: Store<'a, Effect>,
    pub(crate) line: Direct,
}

/// How long the work takes, in nanoseconds.
pub(crate) fn timed<F: FnOnce()>(rt: &HostRuntime, work: F) -> anyhow::Result<u64>
    requires { F.IsAlwaysCallable work }
{
    let start = Instant::now(rt)?;
    work();
    let took = start.elapsed(rt)?;
    Ok(u64::try_from(took.as_nanos()).unwrap_or(u64::MAX))
}

// The link that is taken `up` steps above record `to`, if there is one.
fn link_above(to: u32, up: usize) -> Option<u8> {
    let parent = |at: u32| Some(at.checked_sub(1)? / 4);
    let at = successors(Some(to), |at| parent(*at)).nth(up)?;
    Some((at.checked_sub(1)? % 4) as u8)
}

impl Site<'_> {
    /// A four-way tree over all cells: record k + 1 hangs at link k mod 4 of record k / 4.
    pub(crate) fn grow(&mut self, x: Effect) {
        for k in 0..4095u32 {
            let _ = self.store.new(0, 1, x);
            let _ = self.store.copy(0, 0, 2);
            self.descend(k / 4);
            let _ = self.store.look(0, 2, (k % 4) as u8, 1);
            let _ = self.store.note(0);
            let _ = self.store.store(0);
        }
    }

    // Goes from the root in place 2 down to record `to`.
    fn descend(&mut self, to: u32) {
        for up in (0..7).rev() {
            if let Some(link) = link_above(to, up) {
                let _ = self.store.load(0, 2, link, 2);
            }
        }
    }

    /// Card calls at links that hang on one another, so that none can be left out.
    pub(crate) fn card_calls(&mut self, seed: u32) {
        let store = &mut self.store;
        let mut x = seed | 1;
        let _ = store.copy(0, 0, 2);
        for _ in 0..1000 {
            x = x.wrapping_mul(1664525).wrapping_add(1013904223);
            let link = (x >> 30) as u8;
            let _ = store.copy(0, 2, 3);
            let _ = store.load(0, 3, link, 2);
            let _ = store.look(0, 3, link, 2);
            let _ = store.note(0);
            let found = store.store(0);
            if let Ok(0) = found {
                let _ = store.copy(0, 0, 2);
            }
        }
    }

    // Sends the present order to each card and takes its reply.
    fn orders(&mut self) {
        for c in 0..8u8 {
            let _ = self.store.knock(c, &mut self.line);
            let _ = self.store.attend(c, &mut self.line);
            let _ = self.store.hear(c, &mut self.line);
        }
    }

    fn trace_all(&mut self) {
        for _ in 0..4097 {
            let _ = self.store.trace();
        }
    }

    fn sweep_all(&mut self) {
        for _ in 0..4096 {
            let _ = self.store.sweep();
        }
    }

    /// A whole round, call by call.
    pub(crate) fn round(&mut self) {
        let _ = self.store.open();
        self.orders();
        self.orders();
        self.orders();
        self.trace_all();
        self.orders();
        self.sweep_all();
        let _ = self.store.settle();
    }

    /// A whole round in which the calls that go over the table are timed: the last hear of Gather, and settle.
    pub(crate) fn longest(&mut self, rt: &HostRuntime) -> anyhow::Result<u64> {
        let _ = self.store.open();
        self.orders();
        self.orders();
        let mut long = 0;
        for c in 0..8u8 {
            let _ = self.store.knock(c, &mut self.line);
            let _ = self.store.attend(c, &mut self.line);
            let hear = || {
                let _ = self.store.hear(c, &mut self.line);
            };
            long = long.max(timed(rt, hear)?);
        }
        self.trace_all();
        self.orders();
        self.sweep_all();
        let settle = || {
            let _ = self.store.settle();
        };
        Ok(long.max(timed(rt, settle)?))
    }
}
