// What a page may be used for.
#[derive(Clone, Copy, PartialEq, Eq, Debug, Drop)]
pub enum PageType {
    ReadOnly,
    ReadWrite,
    Execute,
    Gateway,
}
