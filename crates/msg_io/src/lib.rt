//! What a run reads from and writes to, the words of its command line, and the report of its end.
#![tactic(auto)]

mod admission;
mod command_line;
mod complaint;
mod decimal;
mod device;
mod fault;
mod from_reader;
pub mod laws;
mod reading;
mod to_writer;
mod writing;

pub use admission::{MAX_WORKERS, admit, write_text};
pub use command_line::{arguments, words};
pub use complaint::{Program, complain};
pub use decimal::{push_decimal, push_digits};
pub use device::{Failed, Sink, Source};
pub use fault::RunFault;
pub use from_reader::FromReader;
pub use reading::{ReadFault, read_whole};
pub use to_writer::ToWriter;
pub use writing::write_whole;
