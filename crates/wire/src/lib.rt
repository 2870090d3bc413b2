// What stands at one object's type-byte, read from the bytes. Nothing here goes into contents.
#![tactic(auto)]

pub mod bits;
pub mod head;
pub mod integer;
pub mod padding;
pub mod short;
pub mod size;
pub mod span;
