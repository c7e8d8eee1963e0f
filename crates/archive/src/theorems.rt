//! What writing and reading owe each other, for any kind of contents.
ghost use Rattle.archive.specs.Laws.{Forth, Once, Starts, Back, Reached};

use contents::Contents;

/// Bytes that are accepted are those that their store writes, so no two strings of bytes read as the same store; a store that
/// was read is one where runs may start; and reading what a store writes gives that store at rest. Answers the code of the
/// kind.
pub fn archive_laws<C: Contents>() -> u16
    ensures forth { Forth C.CODE C.form C.read }
    ensures once { Once C.CODE C.read }
    ensures starts { Starts C.CODE C.read }
    ensures back { Back C.CODE C.form C.read }
{
    C::CODE
}

/// Every store that a run of calls leads to can be archived: it meets what the law `back` asks.
pub fn reached_is_good<C>() -> u8
    ensures { Reached C }
{
    0
}
