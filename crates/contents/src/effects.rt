ghost use Rattle.std.specs.Prelude.{◌≡◌, Some};
ghost use Rattle.std.specs.Option.{ok_or};
ghost use Rattle.refusal.specs.declared.kinds.Refusal.TheVariants.{OutOfRange};
ghost use Rattle.contents.specs.Effects.{effect_code, effect_of, effect_form, effect_read, effect_text};
ghost use Rattle.contents.specs.EffectLaws;
ghost use Rattle.std.proofs.Common.{rules};

use crate::effect::Effect;
use crate::form::Contents;
use refusal::Refusal;
use std::fmt;

const LAST_RELAY: u16 = 64;

const LONGEST_DELAY: u16 = 600;

impl Effect {
    /// The effect with these numbers, or refusal 14 where one is out of range.
    pub fn new(relay: u16, delay: u16) -> Result<Effect, Refusal>
        ensures { result ≡ ok_or (effect_of relay delay) OutOfRange }
    {
        if !(1..=LAST_RELAY).contains(&relay) || delay > LONGEST_DELAY {
            return Err(Refusal::OutOfRange);
        }
        Ok(Effect { relay, delay })
    }
}

impl Contents for Effect {
    const CODE: u16 = 2;

    ghost CODE = { effect_code };

    ghost form = { effect_form };

    ghost read = { effect_read };

    ghost sixteen = { Prim.search rules };

    ghost back = { EffectLaws.back };

    ghost forth = { EffectLaws.forth };

    fn form(&self) -> [u8; 16] {
        let [r0, r1] = self.relay.to_le_bytes();
        let [d0, d1] = self.delay.to_le_bytes();
        [r0, r1, d0, d1, 0, 0, 0, 0, 0, 0, 0, 0, 0, 0, 0, 0]
    }

    #[tactic(auto, unfolding(crate::specs::Effects::effect_read))]
    fn reading(bytes: &[u8; 16]) -> Option<Effect> {
        let [r0, r1, d0, d1, ..] = *bytes;
        let relay = u16::from_le_bytes([r0, r1]);
        let delay = u16::from_le_bytes([d0, d1]);
        Effect::new(relay, delay)
            .ok()
            .filter(|effect| effect.form() == *bytes)
    }
}

impl fmt::Display for Effect {
    ghost output = { λ e. Some (effect_text e) };

    fn fmt<W: fmt::Write>(&self, f: &mut fmt::Formatter<W>) -> fmt::Result {
        let relay = self.relay;
        let delay = self.delay;
        write!(f, "relay {relay} delay {delay}")
    }
}
