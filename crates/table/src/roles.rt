//! The roles of a note: what it says of its fact. They compare as their numbers do.

ghost use Rattle.std.specs.Prelude.{◌≡◌, ok_or};
ghost use Rattle.table.specs.declared.faults.NoteFault.TheVariants.{RoleOutOfLimits};
ghost use Rattle.table.specs.Roles.{role_of, number_of};

use crate::faults::NoteFault;

#[derive(Clone, Copy, PartialEq, Eq, PartialOrd, Ord, Debug)]
pub enum Role {
    /// the fact is true at the beginning
    Initial = 1,
    /// the fact is to be true at the end
    Goal = 2,
    StartNeeds = 3,
    StartAdds = 4,
    StartDeletes = 5,
    EndNeeds = 6,
    EndAdds = 7,
    EndDeletes = 8,
    /// the fact holds while the action is open
    Held = 9,
}

impl TryFrom<u32> for Role {
    type Error = NoteFault;

    ghost try_from_gives = { λ number answer. answer ≡ ok_or (role_of number) RoleOutOfLimits };

    fn try_from(number: u32) -> Result<Role, NoteFault> {
        match number {
            1 => Ok(Role::Initial),
            2 => Ok(Role::Goal),
            3 => Ok(Role::StartNeeds),
            4 => Ok(Role::StartAdds),
            5 => Ok(Role::StartDeletes),
            6 => Ok(Role::EndNeeds),
            7 => Ok(Role::EndAdds),
            8 => Ok(Role::EndDeletes),
            9 => Ok(Role::Held),
            _ => Err(NoteFault::RoleOutOfLimits),
        }
    }
}

impl From<Role> for u32 {
    ghost from_gives = { λ role number. number ≡ number_of role };

    fn from(role: Role) -> u32 {
        role as u32
    }
}
