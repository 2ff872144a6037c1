// The network's security level (document 02, 9): Zigbee's levels 5, 6 and 7, which encrypt and authenticate, or another, which every
// operation that takes a level refuses by 29.
ghost use Rattle.std.specs.Prelude.{◌≡◌, ◌≤◌};
ghost use Rattle.types.specs.Levels.{network_level, is_other, tag_length};

#[derive(Clone, Copy)]
pub enum Level {
    EncMic32,
    EncMic64,
    EncMic128,
    Other,
}

// The level of a number.
impl From<u64> for Level {
    ghost from_gives = { λ number level. level ≡ network_level number };

    fn from(number: u64) -> Level {
        match number {
            5 => Level::EncMic32,
            6 => Level::EncMic64,
            7 => Level::EncMic128,
            _ => Level::Other,
        }
    }
}

impl Level {
    // Whether it is another than 5, 6 and 7 (refusal 29).
    pub fn is_other(self) -> bool
        ensures { result ≡ is_other self }
    {
        matches!(self, Level::Other)
    }

    // How many bytes a tag has; none at another level.
    #[tactic(auto, unfolding(crate::specs::Levels::tag_length))]
    pub fn tag_length(self) -> usize
        ensures { (result ≡ tag_length self) × (result ≤ 16) }
    {
        match self {
            Level::EncMic32 => 4,
            Level::EncMic64 => 8,
            Level::EncMic128 => 16,
            Level::Other => 0,
        }
    }
}
