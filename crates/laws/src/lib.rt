//! What holds of every run of calls on the store, over any line that keeps the four rules: the three lasting promises, of
//! whole runs and one call at a time, and six laws. Each function here stands for one theorem, which its contract states.
#![tactic(auto)]

ghost use Rattle.laws.specs.Promises.{Promises};
ghost use Rattle.laws.specs.Runs.{EveryRunKept};
ghost use Rattle.laws.specs.Calls.{EveryCallPromised};
ghost use Rattle.laws.specs.Laws.{RefusedChangesNothing, RepeatsChangeNothing, OrdersOnceInOrder, AtRestAllMarked, NamesOfFreeCells, ContentsStay};

// kept: nine functions of one shape, since each stands for a theorem of its own, and a contract takes none as a parameter.

/// The three lasting promises.
pub fn promises_stand<C>() -> u8
    ensures { Promises C }
{
    0
}

/// Each of them along a whole run, step by step.
pub fn whole_runs<C>() -> u8
    ensures { EveryRunKept C }
{
    0
}

/// Each of them for one call, from what is known of the calls before it.
pub fn one_call<C>() -> u8
    ensures { EveryCallPromised C }
{
    0
}

/// A refused call leaves the store and the line as they were.
pub fn refused_changes_nothing<C>() -> u8
    ensures { RefusedChangesNothing C }
{
    0
}

/// An order that is delivered again changes nothing in the store.
pub fn repeats_change_nothing<C>() -> u8
    ensures { RepeatsChangeNothing C }
{
    0
}

/// In a round each card obeys its four orders, each once and in order.
pub fn orders_once_in_order<C>() -> u8
    ensures { OrdersOnceInOrder C }
{
    0
}

/// At rest every record is marked and nothing waits.
pub fn at_rest_all_marked<C>() -> u8
    ensures { AtRestAllMarked C }
{
    0
}

/// No place and no update in hand names a free cell, and a link or a log does only in a record that is about to be freed.
pub fn names_of_free_cells<C>() -> u8
    ensures { NamesOfFreeCells C }
{
    0
}

/// Making a store writes the contents of cell 0 alone, and a sweep writes none.
pub fn contents_stay<C>() -> u8
    ensures { ContentsStay C }
{
    0
}
