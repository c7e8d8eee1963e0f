ghost use Rattle.std.specs.Prelude.{◌≤◌};
ghost use Rattle.contents.specs.Ranges.{Within};

/// What the panel does: a relay output, after a delay in seconds. Only effects in range exist.
#[derive(Clone, Copy, PartialEq, Eq, Debug)]
pub struct Effect {
    /// 1 to 64.
    pub relay: u16,
    /// 0 to 600.
    pub delay: u16,
    ghost wired: { Within 1 64 relay },
    ghost timed: { delay ≤ 600 },
}
