//! Why no medium is made.

use thiserror::Error;

#[derive(Clone, Copy, Debug, Drop, PartialEq, Eq, Error)]
pub enum MediumFault {
    /// A link has a delay of 0, loses every 0th frame, counts more frames to the next loss than its period, or has a chance
    /// above 65,536.
    #[error("bad link")]
    BadLink,
    /// Memory was refused.
    #[error("out of memory")]
    Memory,
}
