//! The devices of the operating system. Each opens at its first call, counts what fails, and tells
//! nothing of what it holds.
#![tactic(auto)]

mod faults;
mod file_disk;
mod file_source;
mod folder_landing;
mod print_sink;
mod whole;

pub use file_disk::FileDisk;
pub use file_source::FileSource;
pub use folder_landing::FolderLanding;
pub use print_sink::PrintSink;

#[cfg(test)]
mod tests;
