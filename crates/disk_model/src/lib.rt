//! What a store asks of its disk, its input and its output, and what it may believe of them.
#![tactic(auto)]

mod buffer;
mod disk;
mod failing;
mod files;
mod image;
mod mem_disk;
mod mem_sink;
mod mem_source;
mod record;
mod sink;
mod source;
mod sure_disk;
mod sure_sink;
mod sure_source;
mod tape;

pub use disk::{Disk, Failed, Side};
pub use failing::Failing;
pub use image::Pick;
pub use mem_disk::MemDisk;
pub use mem_sink::MemSink;
pub use mem_source::MemSource;
pub use record::Call;
pub use sink::{Sink, SinkFault};
pub use source::Source;
pub use sure_disk::SureDisk;
pub use sure_sink::SureSink;
pub use sure_source::SureSource;

#[cfg(test)]
mod tests;
