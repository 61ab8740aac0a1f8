//! The limits of the subject, and the places that a set needs for them. Places are counted from 0, and place 0 stays free.

pub const MOST_FACTS: u32 = 32;

pub const MOST_ACTIONS: u32 = 16;

pub const MOST_STEPS: u32 = 64;

pub const FACT_PLACES: usize = MOST_FACTS as usize + 1;

pub const ACTION_PLACES: usize = MOST_ACTIONS as usize + 1;

pub const ROLE_PLACES: usize = 10;
