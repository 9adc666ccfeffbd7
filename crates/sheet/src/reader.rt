// The reader of a sheet, where its callers look for it.
pub use sheet_reader::{Reader, moved, opened, read, record_read};
