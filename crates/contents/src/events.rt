ghost use Rattle.std.specs.Prelude.{◌≡◌, Some};
ghost use Rattle.std.specs.Option.{ok_or};
ghost use Rattle.refusal.specs.declared.kinds.Refusal.TheVariants.{OutOfRange};
ghost use Rattle.contents.specs.Events.{event_code, event_of, event_form, event_read, event_text};
ghost use Rattle.contents.specs.EventLaws;
ghost use Rattle.std.proofs.Common.{rules};

use crate::event::Event;
use crate::form::Contents;
use crate::kind::Kind;
use refusal::Refusal;
use std::fmt;

const LAST_DEVICE: u16 = 254;

const LAST_ZONE: u16 = 512;

impl Event {
    /// The event with these numbers, the kind by its number, or refusal 14 where one is out of range.
    pub fn new(moment: u32, device: u16, zone: u16, kind: u8) -> Result<Event, Refusal>
        ensures { result ≡ ok_or (event_of moment device zone kind) OutOfRange }
    {
        let kind = Kind::try_from(kind)?;
        if !(1..=LAST_DEVICE).contains(&device) || !(1..=LAST_ZONE).contains(&zone) {
            return Err(Refusal::OutOfRange);
        }
        Ok(Event {
            moment,
            device,
            zone,
            kind,
        })
    }
}

impl Contents for Event {
    const CODE: u16 = 1;

    ghost CODE = { event_code };

    ghost form = { event_form };

    ghost read = { event_read };

    ghost sixteen = { Prim.search rules };

    ghost back = { EventLaws.back };

    ghost forth = { EventLaws.forth };

    fn form(&self) -> [u8; 16] {
        let [m0, m1, m2, m3] = self.moment.to_le_bytes();
        let [d0, d1] = self.device.to_le_bytes();
        let [z0, z1] = self.zone.to_le_bytes();
        let kind = self.kind.number();
        [m0, m1, m2, m3, d0, d1, z0, z1, kind, 0, 0, 0, 0, 0, 0, 0]
    }

    #[tactic(auto, unfolding(crate::specs::Events::event_read))]
    fn reading(bytes: &[u8; 16]) -> Option<Event> {
        let [m0, m1, m2, m3, d0, d1, z0, z1, kind, ..] = *bytes;
        let moment = u32::from_le_bytes([m0, m1, m2, m3]);
        let device = u16::from_le_bytes([d0, d1]);
        let zone = u16::from_le_bytes([z0, z1]);
        Event::new(moment, device, zone, kind)
            .ok()
            .filter(|event| event.form() == *bytes)
    }
}

impl fmt::Display for Event {
    ghost output = { λ e. Some (event_text e) };

    fn fmt<W: fmt::Write>(&self, f: &mut fmt::Formatter<W>) -> fmt::Result {
        let moment = self.moment;
        let device = self.device;
        let zone = self.zone;
        let kind = self.kind;
        write!(f, "moment {moment} device {device} zone {zone} kind {kind}")
    }
}

#[cfg(test)]
mod tests {
    use super::*;
    use std::test::Fail;

    #[test]
    fn device_254_is_the_last(rt: HostRuntime) -> Result<(), Fail> {
        assert!(rt; Event::new(7, 254, 512, 6).is_ok());
        match Event::new(7, 255, 512, 6) {
            Ok(_) => Err(Fail::new("device 255 was accepted")),
            Err(refusal) => {
                assert_eq!(rt; refusal.number(), 14);
                Ok(())
            },
        }
    }

    #[test]
    fn there_is_no_seventh_kind(rt: HostRuntime) {
        assert!(rt; Event::new(7, 1, 1, 0).is_err());
        assert!(rt; Event::new(7, 1, 1, 7).is_err());
    }
}
