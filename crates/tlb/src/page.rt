// A virtual page: one page of a segment. Two are the same where segment and number both are.
#[derive(Clone, Copy, PartialEq, Eq, Debug, Drop)]
pub struct Page {
    pub segment: u16,
    pub number: u32,
}
