use refusal::Refusal;

/// A colour of records and births. A record of the store's marked colour is marked.
#[derive(Clone, Copy, PartialEq, Eq, Default)]
pub enum Colour {
    #[default]
    Zero,
    One,
}

/// The phases of a round, in order and round again; Rest lies between two rounds.
#[derive(Clone, Copy, PartialEq, Eq)]
pub enum Phase {
    Rest,
    /// Cards switch snoop on.
    Alert,
    /// Cards switch logging on.
    Log,
    /// Cards switch snoop off and put what their places hold on the waiting list.
    Gather,
    /// The collector marks what waits, and what that names.
    Trace,
    /// Cards switch logging off.
    Ease,
    /// The collector frees what is not marked, cell by cell.
    Sweep,
    /// All is swept, and the round is to be closed.
    Settle,
}

/// A record, without its contents, which stand in a table of their own.
#[derive(Clone, Copy)]
pub struct Record {
    /// Its number for life; no other record of the store ever has it.
    pub serial: u32,
    /// Each empty or a cell number.
    pub links: [Option<u16>; 4],
    pub colour: Colour,
    /// It stands on the waiting list.
    pub waiting: bool,
    /// It was stored into a link while snoop was on, and is to be kept this round.
    pub snooped: bool,
    /// The links as they were before a card changed them in this round: a logged record has a log.
    pub log: Option<[Option<u16>; 4]>,
}

/// A cell of the store's table: a record, or none where the cell is free.
pub type Cell = Option<Record>;

/// How far an update in hand has come: looked, with the draft if one was kept; then noted.
// kept: as an option of an option, noted and looked without a draft would differ by one `Some`.
#[derive(Clone, Copy)]
pub enum Stage {
    Looked(Option<[Option<u16>; 4]>),
    Noted,
}

/// An update in hand: link `link` of the record in `cell` is to become `target`.
#[derive(Clone, Copy)]
pub struct Update {
    pub cell: u16,
    pub link: u8,
    pub target: Option<u16>,
    pub stage: Stage,
}

/// A loop card.
#[derive(Clone, Copy, Default)]
pub struct Card {
    /// What the card holds in hand, each blank or a cell number: the roots of the collection.
    pub places: [Option<u16>; 8],
    /// On: the target of a store gets the mark snooped.
    pub snoop: bool,
    /// On: an update keeps a draft, which note makes the record's log.
    pub logging: bool,
    /// The colour of the records that the card makes.
    pub birth: Colour,
    /// The last order that the card obeyed.
    pub last: u32,
    pub update: Option<Update>,
}

/// The fifteen calls: card c, places p and q, link i, contents x.
#[derive(Clone, Copy)]
pub enum Call<C> {
    New(u8, u8, C),
    Load(u8, u8, u8, u8),
    Copy(u8, u8, u8),
    Drop(u8, u8),
    Read(u8, u8),
    Look(u8, u8, u8, u8),
    Note(u8),
    Store(u8),
    Open,
    Knock(u8),
    Attend(u8),
    Hear(u8),
    Trace,
    Sweep,
    Settle,
}

/// What a call gives that is not refused.
#[derive(Clone, Copy)]
pub enum Given<C> {
    Number(u32),
    /// The serial and the contents of a record, which read gives.
    Contents(u32, C),
}

/// What a call answers.
pub type Answer<C> = Result<Given<C>, Refusal>;
