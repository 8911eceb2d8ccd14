// The limits of papers 01 and 02, as `specs/Bounds` names them. No function.
#![tactic(auto)]

// Refusal 1.
pub const MAX_ROUNDS: u32 = 6;

// Refusal 3.
pub const MAX_VERTICES: usize = 8192;

pub const MAX_FACES: usize = 4096;

pub const MAX_REFINED_FACES: usize = 262144;

// Refusal 5.
pub const MAX_COORDINATE: i32 = 1048576;

// Refusal 11.
pub const MIN_RING: u16 = 3;

pub const MAX_RING: u16 = 8;

pub const MAX_FAN: u16 = 6;

// Refusal 15.
pub const MAX_TALLY: u64 = 4000000000;
