ghost use Rattle.line.specs.Passing.{Passed};

use crate::link::Line;

/// Tries once to pass a number to a card, and says whether the card now has it.
pub fn passes<L: Line>(line: &mut L, card: u8, number: u32) -> bool
    ensures { Passed L.sends L.fetches card number line.old result line.new }
{
    line.send(card, number);
    line.fetch(card) == Some(number)
}
