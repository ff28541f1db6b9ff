//! The file of a store: what is written is read as it was, and each file that was cut or changed is refused, with
//! nothing of it in the shelf.

mod damaged;
mod files;
mod streams;
mod worked;
