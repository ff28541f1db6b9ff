//! Laws: what follows from the definitions. Nothing here runs.

pub mod bound_laws;
pub mod chunk_fault_laws;
pub mod chunk_laws;
pub mod existence_laws;
pub mod head_laws;
pub mod length_laws;
pub mod order_laws;
pub mod reader_laws;
pub mod reading_laws;
pub mod request_laws;
pub mod response_laws;
pub mod stream_laws;
pub mod text_laws;
pub mod value_laws;
pub mod writing_laws;
