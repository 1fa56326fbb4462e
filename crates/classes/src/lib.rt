//! Size classes. Class `c` stands for `i` from 1 to 8 and `k` from 4 to 7, with `c = 4 * (i - 1) + (k - 4)`.
//! Its blocks have `k * 2^i` bytes, and its runs `k` pages, which they fill.
#![tactic(auto)]

mod class;
mod exports;
mod long;
mod table;

pub use class::Class;
pub use exports::{
    cogyrundal_class_of_length, cogyrundal_pages_of_class, cogyrundal_size_of_class,
    cogyrundal_slot_of_place,
};
pub use long::pages_of_long;

/// The bytes of a page.
pub const PAGE_BYTES: u32 = 512;

/// How many classes there are.
pub const CLASSES: u32 = 32;

/// The longest request that has a class, in bytes.
pub const LONGEST_CLASSED: u32 = 1792;

/// The longest request, in bytes: 255 pages.
pub const LONGEST_REQUEST: u32 = 130560;
