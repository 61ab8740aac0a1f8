//! The notes of the two small cells, each with a call that is refused among them.

use table::Role;

// A note as the draft's call takes it: its role, its action (0 where the role takes none) and its fact.
#[derive(Clone, Copy)]
pub struct Note {
    pub role: Role,
    pub action: u32,
    pub fact: u32,
}

pub const SINGLE: [Note; 3] = [
    Note {
        role: Role::Goal,
        action: 0,
        fact: 1,
    },
    Note {
        role: Role::EndAdds,
        action: 1,
        fact: 1,
    },
    Note {
        role: Role::EndDeletes,
        action: 1,
        fact: 1,
    },
];

pub const HANDOVER: [Note; 6] = [
    Note {
        role: Role::Goal,
        action: 0,
        fact: 2,
    },
    Note {
        role: Role::StartAdds,
        action: 1,
        fact: 1,
    },
    Note {
        role: Role::EndDeletes,
        action: 1,
        fact: 1,
    },
    Note {
        role: Role::Held,
        action: 2,
        fact: 1,
    },
    Note {
        role: Role::StartDeletes,
        action: 2,
        fact: 1,
    },
    Note {
        role: Role::EndAdds,
        action: 2,
        fact: 2,
    },
];
