ghost use Rattle.std.specs.Prelude.{◌<◌, ◌≤◌};
ghost use Rattle.contents.specs.Ranges.{Within};

use crate::kind::Kind;

/// Something that happened at a device: when, where and what. Only events in range exist.
#[derive(Clone, Copy, PartialEq, Eq, Debug)]
pub struct Event {
    /// Any number of 32 bits.
    pub moment: u32,
    /// 1 to 254.
    pub device: u16,
    /// 1 to 512.
    pub zone: u16,
    pub kind: Kind,
    ghost dated: { moment < 4294967296 },
    ghost addressed: { Within 1 254 device },
    ghost zoned: { Within 1 512 zone },
}
