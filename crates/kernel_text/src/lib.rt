//! The text of a kernel, formats 1 and 2: how it is written, and the grammar by which it is read.
//! The functions of `laws` do nothing: the contract of each is one law.
#![tactic(auto)]

mod build_book;
mod check_range;
mod classify;
mod clause_shape;
mod content;
mod fault;
mod find_stray;
mod holding;
mod images;
mod laws;
mod line_end;
mod member;
mod push_lines;
mod read;
mod read_line;
mod read_number;
mod reader;
mod stored;
mod write;
mod write_json;

// A kernel is written, as text or as JSON.
pub use write::write_kernel;
pub use write_json::kernel_json;

// A text is read as a kernel, and asked for the classes of goals.
pub use fault::KernelFault;
pub use images::ImageError;
pub use member::Member;
pub use stored::{MemberList, StoredKernel, read_kernel};

// Laws.
pub use laws::{
    images_serve, kernels_are_writable, lines_are_counted, lines_are_found, read_is_written,
    rounds_give_kernels, texts_are_judged, texts_are_read_once, texts_are_told,
    written_is_read_back,
};
