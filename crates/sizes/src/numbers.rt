// A block's number in its object (source block number).
#[repr(C)]
#[derive(Clone, Copy)]
pub struct Sbn(pub u32);

// A symbol's number in its block (encoding symbol ID).
#[repr(C)]
#[derive(Clone, Copy)]
pub struct Esi(pub u32);
