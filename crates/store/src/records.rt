//! Records changed in place.
ghost use Rattle.std.specs.Prelude.{◌≡◌, ℕ, ◌+◌, ◌≤◌, true, None, length, slice_index_or};
ghost use Rattle.std.specs.Fn.{FnOnceReturnsAtMut};
ghost use Rattle.machine.specs.World.{set_link, log_by, snoopen, alter_at, alter_all, unlog, unsnoop, greyen, blacken};
ghost use Rattle.machine.specs.Cards.{snoop_on};
ghost use Rattle.machine.specs.Waiting.{pale};
ghost use Rattle.store.specs.Model.{spares};
ghost use Rattle.store.specs.Altering.{AltersAt, AltersFirst, ByCall};

use crate::parts::put;
use machine::types::{Cell, Colour, Record};

// Changes the record in cell x, if there is one.
// kept: a table and a cell's number are two parameters, since a type of both would be made at each call and say no more.
fn alter<F: FnOnce(&mut Record)>(cells: &mut [Cell], x: u16, change: F)
    requires { F.IsAlwaysCallable change }
    ensures { AltersAt (λ r s. FnOnceReturnsAtMut F.FnOnce change r tt s) cells.old x cells.new }
{
    let at = x as usize;
    if at < cells.len() {
        if let Some(r) = &mut cells[at] {
            change(r);
        }
    }
}

// kept: `room` follows from `does`, and is said at each so that the store's facts hold again at once.
pub(crate) fn relink(cells: &mut [Cell], x: u16, i: u8, v: Option<u16>)
    ensures does { cells.new ≡ alter_at cells.old x (set_link i v) }
    ensures room { spares cells.new ≡ spares cells.old }
{
    alter(cells, x, |r| put(&mut r.links, i as usize, v));
}

pub(crate) fn log(cells: &mut [Cell], x: u16, d: Option<[Option<u16>; 4]>)
    ensures does { cells.new ≡ alter_at cells.old x (log_by d) }
    ensures room { spares cells.new ≡ spares cells.old }
{
    alter(cells, x, |r| r.log = r.log.or(d));
}

fn snoop(cells: &mut [Cell], x: u16)
    ensures does { cells.new ≡ alter_at cells.old x snoopen }
    ensures room { spares cells.new ≡ spares cells.old }
{
    alter(cells, x, |r| r.snooped = true);
}

pub(crate) fn snoop_on(cells: &mut [Cell], on: bool, v: Option<u16>)
    ensures does { cells.new ≡ snoop_on on cells.old v }
    ensures room { spares cells.new ≡ spares cells.old }
{
    if !on {
        return;
    }
    if let Some(x) = v {
        snoop(cells, x);
    }
}

pub(crate) fn greyen(cells: &mut [Cell], x: u16, m: Colour)
    requires { pale m (slice_index_or cells.old x None) ≡ true }
    ensures does { cells.new ≡ alter_at cells.old x greyen }
    ensures room { spares cells.new ≡ spares cells.old + 1 }
    ensures most { spares cells.new ≤ length cells.new }
{
    alter(cells, x, |r| r.waiting = true);
}

pub(crate) fn blacken(cells: &mut [Cell], x: u16, m: Colour)
    ensures does { cells.new ≡ alter_at cells.old x (blacken m) }
    ensures room { spares cells.old ≤ spares cells.new + 1 }
{
    alter(cells, x, |r| {
        r.colour = m;
        r.waiting = false;
    });
}

// Changes every record.
fn alter_all<F: Fn(&mut Record)>(cells: &mut [Cell], change: F)
    requires { F.IsAlwaysCallable change }
    ensures { AltersFirst (ByCall (F.post change)) cells.old cells.new (length cells.old) }
{
    for cell in cells.iter_mut() {
        if let Some(r) = cell {
            change(r);
        }
    }
}

pub(crate) fn unlog_all(cells: &mut [Cell])
    ensures does { cells.new ≡ alter_all cells.old unlog }
    ensures room { spares cells.new ≡ spares cells.old }
{
    alter_all(cells, |r| r.log = None);
}

pub(crate) fn unsnoop_all(cells: &mut [Cell])
    ensures does { cells.new ≡ alter_all cells.old unsnoop }
    ensures room { spares cells.new ≡ spares cells.old }
{
    alter_all(cells, |r| r.snooped = false);
}
