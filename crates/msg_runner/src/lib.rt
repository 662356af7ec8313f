//! The runs of the programs `msgrun` and `msgbeside`, from bytes to bytes.
#![tactic(auto)]

mod arena;
mod asking;
mod batch;
mod changes;
mod context;
mod crew;
mod document;
mod gate;
mod program;
mod running;
mod share;
mod witness;
mod workers;
mod writing;

pub use changes::Changes;
pub use document::answer_document;
pub use gate::{Gate, LastGate, OpenGate};
pub use msg_io::{
    Failed, FromReader, Program, RunFault, Sink, Source, ToWriter, arguments, complain,
};
pub use program::{run_program, run_words};
pub use running::{run, run_beside};
pub use witness::versions_beside;
