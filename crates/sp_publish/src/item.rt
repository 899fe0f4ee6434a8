//! What the log of a published list has.

use sp_value::Edition;

/// An entry of the log. No value of it is made.
pub enum Item {
    Made(Edition),
    End,
}
