//! The run of the program: it reads lines of bytes and writes their answers.
#![tactic(auto)]

mod answer;
mod count_line;
mod device;
mod ending;
mod host;
mod laws;
mod line_buffer;
mod printed;
mod queries;
mod refusals;
mod run_loop;
mod whole_program;

pub use answer::LONGEST_LINE;
pub use device::{Device, Failed, Sink, Source};
pub use ending::{Ending, status, words};
pub use host::{Host, NoWords, NotRead, Teller};
pub use laws::{line_has_one_answer, lines_have_one_answer};
pub use program_words::Words;
pub use run_loop::{RunFault, Tally, run};
pub use whole_program::program;
