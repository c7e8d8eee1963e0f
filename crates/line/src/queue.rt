/// Up to four numbers, the first to come out first.
// kept: lines are Copy, which ArrayVec is not, and an array of options needs an invariant and a search for its first gap.
#[derive(Clone, Copy)]
pub enum Queue {
    Empty,
    One(u32),
    Two(u32, u32),
    Three(u32, u32, u32),
    Four(u32, u32, u32, u32),
}
