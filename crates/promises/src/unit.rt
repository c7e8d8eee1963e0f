use store::Store;

/// A store and its line together, lent to nothing else while the panel runs.
#[derive(Drop)]
pub struct Panel<'p, 'a, C, L> {
    pub(crate) store: &'p mut Store<'a, C>,
    pub(crate) line: &'p mut L,
}
