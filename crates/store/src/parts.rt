//! Records, cards and cells, one at a time.
ghost use Rattle.std.specs.Prelude.{◌≡◌, ℕ, ◌+◌, ◌-◌, ◌*◌, ◌/◌, ◌%◌, ◌^◌, ◌<◌, ◌≤◌, true, false, [], ◌∷◌, ◌++◌, length, if◌then◌else◌, Some, None, vec_len, vec_capacity, MatchOption, IfErr, OnOk, is_some, nat_le, slice_index_or, slice_set};
ghost use Rattle.std.specs.Option.{option_to_list};
ghost use Rattle.arrayvec.specs.ArrayVec.{array_vec_len};
ghost use Rattle.machine.specs.World.{view_of, see, unsnoop, set_place, set_update, alter_card, set_link, log_by, snoopen, newborn, empty_links, alter_at, alter_all, alter, unlog, greyen, blacken, other, same_colour};
ghost use Rattle.machine.specs.Waiting.{pale, name_if};
ghost use Rattle.machine.specs.Cards.{noted, snoop_on};
ghost use Rattle.machine.specs.Rounds.{heed, ordering};
ghost use Rattle.store.specs.Model.{stack, spares, given, within, sweeping};

use arrayvec::ArrayVec;
use machine::types::{Card, Cell, Colour, Phase, Record, Stage, Update};
use refusal::Refusal;

// A number that is not below count is refused.
pub(crate) fn within(n: u8, count: usize, refusal: Refusal) -> Result<(), Refusal>
    ensures inside { OnOk result (n < count) }
    ensures outside { IfErr result (λ r. (r ≡ refusal) × (count ≤ n)) }
{
    if (n as usize) < count {
        Ok(())
    } else {
        Err(refusal)
    }
}

// A card that has an update in hand is refused what it must not do meanwhile.
pub(crate) fn idle(card: &Card) -> Result<(), Refusal>
    ensures idle { OnOk result (is_some card.now.update ≡ false) }
    ensures busy { IfErr result (λ r. (r ≡ Refusal.UpdateInHand) × (is_some card.now.update ≡ true)) }
{
    match card.update {
        None => Ok(()),
        Some(_) => Err(Refusal::UpdateInHand),
    }
}

// kept: tried with `&mut Card` and by writing in the calls; over a write through the vector's deref_mut no call's proof closed.
// So this and the next two name a known card.
pub(crate) fn heed_order(cards: &mut ArrayVec<Card, 8>, c: u8, m: Colour, n: u32)
    requires { c < array_vec_len cards.old }
    ensures does { cards.new.items ≡ alter_card cards.old.items c (heed m n) }
    ensures len { array_vec_len cards.new ≡ array_vec_len cards.old }
{
    let card = heed(m, n, cards[c as usize]);
    cards[c as usize] = card;
}

pub(crate) fn set_place(cards: &mut ArrayVec<Card, 8>, c: u8, p: u8, v: Option<u16>)
    requires card { c < array_vec_len cards.old }
    requires place { p < 8 }
    ensures does { cards.new.items ≡ alter_card cards.old.items c (set_place p v) }
    ensures len { array_vec_len cards.new ≡ array_vec_len cards.old }
{
    cards[c as usize].places[p as usize] = v;
}

pub(crate) fn set_update(cards: &mut ArrayVec<Card, 8>, c: u8, u: Option<Update>)
    requires { c < array_vec_len cards.old }
    ensures does { cards.new.items ≡ alter_card cards.old.items c (set_update u) }
    ensures len { array_vec_len cards.new ≡ array_vec_len cards.old }
{
    cards[c as usize].update = u;
}

pub(crate) fn noted(u: Update) -> Update
    ensures { result ≡ noted u }
{
    Update {
        stage: Stage::Noted,
        ..u
    }
}

pub(crate) fn newborn(serial: u32, birth: Colour) -> Record
    ensures { result ≡ newborn serial empty_links birth }
{
    Record {
        serial,
        links: [None; 4],
        colour: birth,
        waiting: false,
        snooped: false,
        log: None,
    }
}

pub(crate) fn other(m: Colour) -> Colour
    ensures { result ≡ other m }
{
    match m {
        Colour::Zero => Colour::One,
        Colour::One => Colour::Zero,
    }
}

pub(crate) fn pale(m: Colour, cell: Cell) -> bool
    ensures { result ≡ pale m cell }
{
    cell.is_some_and(|r| !(r.colour == m || r.waiting))
}

/// Past the end nothing is written.
pub(crate) fn put<T: Copy>(s: &mut [T], i: usize, x: T)
    ensures { s.new ≡ slice_set s.old i x }
{
    if i < s.len() {
        s[i] = x;
    }
}

pub(crate) fn after_sweep(n: usize, x: u16) -> Phase
    requires inside { x < n }
    requires most { n ≤ 4096 }
    ensures does { result ≡ (if nat_le n (x + 1) then Phase.Settle else Phase.Sweep) }
    ensures sound { (given result ≡ 4) × (within result ≡ 1) × (x + 1 + sweeping result ≤ n) }
{
    if x as usize + 1 >= n {
        Phase::Settle
    } else {
        Phase::Sweep
    }
}

pub(crate) fn snooped_name(cell: Cell, x: u16) -> Option<u16>
    ensures { result ≡ name_if (see (λ r. r.snooped) false cell) x }
{
    cell.filter(|r| r.snooped).map(|_| x)
}

pub(crate) fn ordering(p: Phase) -> bool
    ensures { result ≡ ordering p }
{
    matches!(p, Phase::Alert | Phase::Log | Phase::Gather | Phase::Ease)
}

pub(crate) fn view_of(r: Record) -> [Option<u16>; 4]
    ensures { result ≡ view_of r }
{
    r.log.unwrap_or(r.links)
}

fn heed(m: Colour, n: u32, k: Card) -> Card
    ensures { result ≡ heed m n k }
{
    // kept: an order is its number, and the rules go by its remainder by four.
    let r = n % 4;
    Card {
        snoop: match r {
            1 => true,
            3 => false,
            _ => k.snoop,
        },
        logging: match r {
            2 => true,
            0 => false,
            _ => k.logging,
        },
        birth: if r == 3 { m } else { k.birth },
        last: n,
        ..k
    }
}

/// The number on top, which is taken off.
pub(crate) fn pop(list: &mut Vec<u16>) -> Option<u16>
    ensures top { MatchOption result ((stack list.old ≡ []) × (stack list.new ≡ [])) (λ k. stack list.old ≡ k ∷ stack list.new) }
    ensures len { vec_len list.new + length (option_to_list result) ≡ vec_len list.old }
    ensures capacity { vec_capacity list.new ≡ vec_capacity list.old }
{
    list.pop()
}

pub(crate) fn push(list: &mut Vec<u16>, x: u16)
    requires { vec_len list.old < vec_capacity list.old }
    ensures top { stack list.new ≡ x ∷ stack list.old }
    ensures len { vec_len list.new ≡ vec_len list.old + 1 }
    ensures capacity { vec_capacity list.new ≡ vec_capacity list.old }
{
    list.push_reserved(x);
}
