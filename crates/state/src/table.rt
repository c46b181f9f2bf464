/// What stands for no parent.
// The C interface: an `Option` would leave some of the bits that C may write undefined.
pub const NO_PARENT: u16 = 65535;

/// A table, with the capacity that is in force. In a sound state, entries past the last rule have no parent.
#[repr(C)]
#[derive(Debug, PartialEq, Eq, Drop)]
pub struct Table {
    pub n: u32,
    pub charge: u32,
    pub capacity: u32,
    /// Of each entry its parent's number.
    // The C interface, and no heap: a tree as a column of numbers.
    pub parent: [u16; 1024],
}
