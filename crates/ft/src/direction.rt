// Roles, and the two directions of a file (IEC 60870-5-104, 9.6): who asks for it and who provides it.
ghost use Rattle.std.specs.Prelude.{◌≡◌};
ghost use Rattle.ft.specs.Directions.{other_role, direction_for, uses_direction, with_direction, selected_count, uses_function};

use crate::{Role, Selection};
use asdu::Direction;

impl Role {
    // The role of the station at the other end.
    pub fn other(self) -> Role
        ensures { result ≡ other_role self }
    {
        match self {
            Role::Controlling => Role::Controlled,
            Role::Controlled => Role::Controlling,
        }
    }
}

// The direction of the transfer that a frame belongs to, by who sends it: in the monitor direction the
// controlling station receives the file, in the control direction the controlled one does.
#[tactic(auto, using(laws::proofs::Decide::decide))]
pub fn direction_for(sender: Role, receiver_side: bool) -> Direction
    ensures { result ≡ direction_for sender receiver_side }
{
    match (sender, receiver_side) {
        (Role::Controlling, true) | (Role::Controlled, false) => Direction::Monitor,
        (Role::Controlling, false) | (Role::Controlled, true) => Direction::Control,
    }
}

impl Selection {
    pub const NONE: Self = Self {
        monitor: false,
        control: false,
    };

    pub const MONITOR: Self = Self {
        monitor: true,
        control: false,
    };

    pub const CONTROL: Self = Self {
        monitor: false,
        control: true,
    };

    pub const BOTH: Self = Self {
        monitor: true,
        control: true,
    };

    // Whether the direction is marked; `Both` asks for both.
    #[tactic(auto, using(laws::proofs::Decide::decide))]
    pub fn uses(self, direction: Direction) -> bool
        ensures { result ≡ uses_direction self direction }
    {
        match direction {
            Direction::Monitor => self.monitor,
            Direction::Control => self.control,
            Direction::Both => self.monitor && self.control,
        }
    }

    // The selection with the direction marked, or not.
    pub fn with(self, direction: Direction, used: bool) -> Selection
        ensures { result ≡ with_direction self direction used }
    {
        match direction {
            Direction::Monitor => Selection {
                monitor: used,
                ..self
            },
            Direction::Control => Selection {
                control: used,
                ..self
            },
            Direction::Both => Selection {
                monitor: used,
                control: used,
            },
        }
    }

    // How many directions are marked.
    #[tactic(auto, using(laws::proofs::Decide::decide), unfolding(crate::specs::Directions::selected_count, crate::specs::Directions::flag_count))]
    pub fn count(self) -> u8
        ensures { result ≡ selected_count self }
    {
        u8::from(self.monitor) + u8::from(self.control)
    }

    // Whether any direction is marked: whether the station uses the function at all.
    #[tactic(auto, using(laws::proofs::Decide::decide), unfolding(crate::specs::Directions::uses_function))]
    pub fn uses_function(self) -> bool
        ensures { result ≡ uses_function self }
    {
        self.monitor || self.control
    }
}
