//! The text of arrays and errors, and tables in files.
#![tactic(auto)]

mod arrays;
mod characters;
mod faults;
mod fields;
mod numbers;
mod planes;
mod records;
mod spacing;
mod table_fault;
mod table_reader;
mod table_writer;

pub use arrays::print;
pub use faults::print_fault;
pub use table_fault::TableFault;
pub use table_reader::read_table;
pub use table_writer::write_table;
