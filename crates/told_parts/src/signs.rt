//! Signs to `tools/refuse.c`, which may refuse requests for memory: requests of sizes that no other has.
use std::alloc::Global;

const REQUESTS_COUNT: usize = 7_340_033;

const MEMORY_IS_BACK: usize = 7_340_035;

/// From here on each request for memory counts, and may be refused.
pub fn requests_count(alloc: Global) {
    ask_for(alloc, REQUESTS_COUNT);
}

/// From here on none counts, and none is refused.
pub fn memory_is_back(alloc: Global) {
    ask_for(alloc, MEMORY_IS_BACK);
}

fn ask_for(alloc: Global, size: usize) {
    let _ = Vec::<u8>::with_capacity(alloc, size);
}
