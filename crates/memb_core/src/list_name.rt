//! The names of a pool's lists.

/// One of the two lists of a pool.
#[derive(Clone, Copy, Drop)]
pub enum ListName {
    First,
    Second,
}
