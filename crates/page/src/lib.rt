// From an image to a printed page: reports, notices, and the build.
#![tactic(auto)]

pub mod build;
pub mod mode;
pub mod print;
pub mod refused;
pub mod report;

pub use text::notice;
