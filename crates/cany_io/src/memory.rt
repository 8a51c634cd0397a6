mod call_plan;
mod mem_sink;
mod mem_source;
mod plain_source;

pub use mem_sink::MemSink;
pub use mem_source::MemSource;
pub use plain_source::PlainSource;
