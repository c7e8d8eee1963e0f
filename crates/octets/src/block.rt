/// What a block says once its check was found right: its number, its count of entries, and its body of 504 bytes.
#[derive(Clone, Copy, PartialEq, Eq, Debug)]
pub struct Block<'a> {
    pub number: u16,
    pub count: u16,
    pub body: &'a [u8],
}
