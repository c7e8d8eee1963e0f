/// Why a call is refused, with the number under which the rules list it; there is no 10. The cases stand in the order
/// of their numbers, which is the order in which they are tested: of several that apply, the topmost is given.
#[derive(Clone, Copy, PartialEq, Eq, Debug)]
pub enum Refusal {
    /// The store has no such card.
    NoCard = 1,
    /// A place number is above 7.
    NoPlace = 2,
    /// A link number is above 3.
    NoLink = 3,
    /// An update is in hand on the card, or, at the writing of an archive, on any card.
    UpdateInHand = 4,
    /// Note finds no update that is looked and not noted; store finds none that is noted.
    NoUpdate = 5,
    /// The place to load, read or look from is blank.
    Blank = 6,
    /// The phase is not the call's; an archive is written outside Rest.
    WrongPhase = 7,
    /// No serial is left for new, or no round for open.
    Exhausted = 8,
    /// No cell is free for new.
    NoCell = 9,
    /// An archive's length is 0 or no multiple of 512.
    BadLength = 11,
    /// Some block's check is wrong.
    BadCheck = 12,
    /// An archive breaks another rule of its format.
    BadArchive = 13,
    /// A table, a buffer or a number is out of range.
    OutOfRange = 14,
}
