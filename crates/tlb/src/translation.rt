// Where a virtual page lies, and who may use it.
use super::info::Info;
use super::page::Page;

#[derive(Clone, Copy, PartialEq, Eq, Debug)]
pub struct Translation {
    pub page: Page,
    pub info: Info,
}
