//! The bytes of an archive, once its head and its length are found right.
ghost use Rattle.std.specs.Prelude.{◌≡◌, ◌≤◌, length};
ghost use Rattle.archive.specs.Heads.{head_in};
ghost use Rattle.archive.specs.Rules.{Sized};

use crate::head::Head;

/// What the rules and the reading go by. The other facts of the head hold of each archive, whatever else is in it.
#[derive(Clone, Copy)]
pub(crate) struct Pages<'a> {
    pub bytes: &'a [u8],
    pub head: Head,
    ghost told: { head ≡ head_in bytes.now },
    ghost sized: { Sized head.cells (length bytes.now) },
    ghost some: { 1 ≤ head.cells },
    ghost cards: { head.cards ≤ 8 },
    ghost rounds: { head.rounds ≤ 1073741823 },
}
