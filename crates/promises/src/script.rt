ghost use Rattle.std.specs.Prelude.{◌≡◌};
ghost use Rattle.store.specs.World.{world};
ghost use Rattle.promises.specs.Acting.{ActBy};
ghost use Rattle.promises.specs.Playing.{Played};

use line::Line;
use machine::types::{Answer, Call, Given};
use std::alloc::{AllocError, Global};
use store::Store;

/// Makes one call.
pub(crate) fn make_call<C: Copy, L: Line>(
    store: &mut Store<'_, C>,
    line: &mut L,
    call: Call<C>,
) -> Answer<C>
    ensures { ActBy L.Line.sends L.Line.fetches L.Line.replies L.Line.collects (world store.old) line.old call result (world store.new) line.new }
{
    // kept: each call has parameters of its own, so a match over the calls is the plainest table of them.
    let number = match call {
        Call::New(c, p, x) => store.new(c, p, x)?,
        Call::Load(c, p, i, q) => store.load(c, p, i, q)?,
        Call::Copy(c, p, q) => store.copy(c, p, q)?,
        Call::Drop(c, p) => store.drop_place(c, p)?,
        Call::Read(c, p) => {
            let (serial, x) = store.read(c, p)?;
            return Ok(Given::Contents(serial, x));
        }
        Call::Look(c, p, i, q) => store.look(c, p, i, q)?,
        Call::Note(c) => store.note(c)?,
        Call::Store(c) => store.store(c)?,
        Call::Open => store.open()?,
        Call::Knock(c) => store.knock(c, line)?,
        Call::Attend(c) => store.attend(c, line)?,
        Call::Hear(c) => store.hear(c, line)?,
        Call::Trace => store.trace()?,
        Call::Sweep => store.sweep()?,
        Call::Settle => store.settle()?,
    };
    Ok(Given::Number(number))
}

/// Plays a script: makes every call, in order, and gives back the answers. Memory for the answers is taken first: where
/// there is none, no call is made.
pub fn play<C: Copy, L: Line>(
    heap: Global,
    store: &mut Store<'_, C>,
    line: &mut L,
    script: &[Call<C>],
) -> Result<Vec<Answer<C>>, AllocError>
    ensures { Played L.Line.means L.Line.sends L.Line.fetches L.Line.replies L.Line.collects (world store.old) line.old script.now result (world store.new) line.new }
{
    let mut answers = Vec::with_capacity(heap, script.len())?;
    for call in script {
        let answer = make_call(store, line, *call);
        answers.push_reserved(answer);
    }
    Ok(answers)
}
