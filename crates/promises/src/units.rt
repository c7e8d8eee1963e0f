ghost use Rattle.std.specs.Prelude.{◌≡◌};
ghost use Rattle.laws.specs.Steps.{AtRest, Start};
ghost use Rattle.store.specs.World.{world};
ghost use Rattle.store.specs.Making.{asked, made_of};
ghost use Rattle.promises.specs.Playing.{Silent, Begins, CalledBy};

use crate::script::make_call;
use crate::unit::Panel;
use line::Line;
use machine::types::{Answer, Call};
use store::{Plan, Store};

/// Makes the store of a plan. It is at rest, so with a line on which nothing is under way it is a start for the promises.
pub fn begin<'a, C: Copy>(plan: Plan<'a, C>, index: C) -> Store<'a, C>
    ensures is { world result ≡ made_of (asked plan.entry) index }
    ensures rest { AtRest (world result) }
{
    plan.make(index)
}

impl<'p, 'a, C: Copy, L: Line> Panel<'p, 'a, C, L> {
    /// A panel over a store and a line. From a store at rest and a line on which nothing is under way the promises begin,
    /// and from any other start too.
    pub fn over(store: &'p mut Store<'a, C>, line: &'p mut L) -> Self
        ensures store { result.store.now ≡ store.old }
        ensures line { result.line.now ≡ line.old }
        ensures begins { Start (world store.old) (L.Line.means line.old) → Begins (world store.old) (L.Line.means line.old) }
        ensures silent { AtRest (world store.old) → Silent (L.Line.means line.old) → Start (world store.old) (L.Line.means line.old) }
        ensures lent { (result.store.ghost_name ≡ store.entry.ghost_name) × (result.line.ghost_name ≡ line.entry.ghost_name) }
    {
        Panel { store, line }
    }

    /// Makes one call. It keeps what the promises need, and what they say of this call holds.
    pub fn call(&mut self, call: Call<C>) -> Answer<C>
        ensures called { CalledBy L.Line.means L.Line.sends L.Line.fetches L.Line.replies L.Line.collects (world self.old.store.now) self.old.line.now call result (world self.new.store.now) self.new.line.now }
        ensures lent { (self.new.store.ghost_name ≡ self.old.store.ghost_name) × (self.new.line.ghost_name ≡ self.old.line.ghost_name) }
    {
        make_call(self.store, self.line, call)
    }
}
