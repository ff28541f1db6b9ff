//! The memory that a server frees and soon needs again.

use std::alloc::Global;

/// More than the replies of one turn mostly take: 4 MiB.
const LARGE_PIECE: usize = 4_194_304;

/// Has the C library keep what is freed, up to 8 MiB of it, for what is allocated next. By itself glibc gives back to
/// the system what is free at the end of its heap beyond 128 KiB: a turn with many replies would give their memory back
/// page by page, and the next turn would ask for it again. When a large piece is freed, that bound becomes twice its
/// size, and pieces up to its size come from the heap (mallopt(3), M_MMAP_THRESHOLD). No byte of the piece is used.
/// Where there is no memory for it, or with another C library, nothing changes.
pub(crate) fn keep_freed_memory(alloc: Global) {
    let _ = Vec::<u8>::with_capacity(alloc, LARGE_PIECE);
}
