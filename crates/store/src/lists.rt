//! The two lists of a store.
ghost use Rattle.std.specs.Prelude.{IfOk};
ghost use Rattle.store.specs.Ready.{RoomFor};

use std::alloc::{AllocError, Global};

/// A free list and a waiting list.
#[derive(Drop)]
pub struct Lists {
    pub free: Vec<u16>,
    pub waiting: Vec<u16>,
}

impl Lists {
    /// Both lists, empty, with room for n cells each.
    pub fn with_room(heap: Global, n: usize) -> Result<Lists, AllocError>
        ensures { IfOk result (λ l. RoomFor n l.free l.waiting) }
    {
        Ok(Lists {
            free: Vec::with_capacity(heap, n)?,
            waiting: Vec::with_capacity(heap, n)?,
        })
    }
}

#[cfg(test)]
mod tests {
    use super::*;
    use std::test::Fail;

    #[test]
    fn there_is_room(rt: HostRuntime) -> Result<(), Fail> {
        let Lists {
            mut free,
            mut waiting,
        } = Lists::with_room(rt.alloc(), 2)?;
        free.push(5)?;
        free.push(6)?;
        waiting.push(7)?;
        assert_eq!(rt; free.pop(), Some(6));
        assert_eq!(rt; waiting.pop(), Some(7));
        assert_eq!(rt; waiting.pop(), None);
        Ok(())
    }
}
