//! Chains of places: those of one hash are found without a look at most others.

ghost use Rattle.std.specs.Prelude.{◌≡◌, ◌<◌, ◌≤◌, ◌+◌, ◌*◌, ◌%◌, ◌^◌, ◌==◌, ◌++◌, [], ◌∷◌, length, vec_len, vec_capacity, IfOk, IfSome, OnOk, OnErr};
ghost use Rattle.bucket_store.specs.Chained.{AreChained, IsOnWay, hashes_of};
ghost use Rattle.bucket_store.specs.Places.{next_place};

use std::alloc::{AllocError, Global};
use std::marker::Model;

// For how many links a list that isn't empty has room, at first.
const FEWEST_LINKS: usize = 8;

// The first and the last place of a slot.
#[derive(Clone, Copy, Debug)]
struct Chain {
    first: u32,
    last: u32,
}

// The hash at a place, and the next place of its slot.
#[derive(Clone, Copy, Debug)]
struct Link {
    hash: u32,
    next: Option<u32>,
}

/// Hashes, of which contracts see the list. Places of one hash lie on one chain, in their order.
#[derive(Debug, Drop)]
pub(crate) struct Chains {
    slots: Vec<Option<Chain>>,
    links: Vec<Link>,
}

impl Model for Chains {
    ghost use Rattle.std.specs.Prelude.{◌<◌, ◌^◌, ℕ, List, length};
    ghost use Rattle.bucket_store.specs.Chained.{AreChained, hashes_of};

    ghost Value = { List ℕ };

    ghost view = { λ c. hashes_of c.links.items };

    ghost invariant = { λ c. AreChained c.slots.items c.links.items × (length c.links.items < 2 ^ 32) };
}

fn slot_of(hash: u32, slots: usize) -> usize
    requires { 0 < slots }
    ensures slot { result ≡ hash % slots }
    ensures inside { result < slots }
{
    hash as usize % slots
}

// Where a walk begins: behind the place before, where that is on the chain, and else at the chain's begin.
fn first_on_way(slots: &[Option<Chain>], links: &[Link], hash: u32, from: usize) -> Option<u32>
    requires { AreChained slots.now links.now }
    ensures { IsOnWay (length slots.now) (hashes_of links.now) hash from result }
{
    if slots.is_empty() {
        return None;
    }
    let slot = slot_of(hash, slots.len());
    if let Some(before) = from.checked_sub(1) {
        if let Some(link) = links.get(before) {
            if slot_of(link.hash, slots.len()) == slot {
                return link.next;
            }
        }
    }
    slots[slot].map(|chain| chain.first)
}

fn next_of(slots: &[Option<Chain>], links: &[Link], hash: u32, from: usize) -> Option<u32>
    requires { AreChained slots.now links.now }
    ensures { result ≡ next_place (λ h. h == hash) (hashes_of links.now) from }
{
    let mut next = first_on_way(slots, links, hash, from);
    while let Some(place) = next {
        let link = links[place as usize];
        if link.hash == hash && from <= place as usize {
            return Some(place);
        }
        next = link.next;
    }
    None
}

// Puts a link behind the others, for which there is room.
fn append(slots: &mut Vec<Option<Chain>>, links: &mut Vec<Link>, hash: u32)
    requires chained { AreChained slots.old.items links.old.items }
    requires slot { 2 * (length links.old.items + 1) ≤ length slots.old.items }
    requires place { length links.old.items < 2 ^ 32 }
    requires room { vec_len links.old < vec_capacity links.old }
    ensures chained { AreChained slots.new.items links.new.items }
    ensures hashes { hashes_of links.new.items ≡ hashes_of links.old.items ++ hash ∷ [] }
    ensures slots { length slots.new.items ≡ length slots.old.items }
    ensures capacity { vec_capacity links.old ≤ vec_capacity links.new }
{
    let place = links.len() as u32;
    let slot = slot_of(hash, slots.len());
    match slots[slot] {
        Some(chain) => {
            links[chain.last as usize].next = Some(place);
            slots[slot] = Some(Chain {
                first: chain.first,
                last: place,
            });
        }
        None => {
            slots[slot] = Some(Chain {
                first: place,
                last: place,
            });
        }
    }
    match links.push(Link { hash, next: None }) {
        Ok(()) => {}
        Err(_) => unreachable!(),
    }
}

// Room for one link more: where there are half as many links as slots, twice as many slots, into which the hashes are put
// anew.
fn make_room(
    alloc: Global,
    slots: &mut Vec<Option<Chain>>,
    links: &mut Vec<Link>,
) -> Result<(), AllocError>
    requires chained { AreChained slots.old.items links.old.items }
    requires few { length links.old.items < 2 ^ 32 }
    ensures chained { AreChained slots.new.items links.new.items }
    ensures hashes { hashes_of links.new.items ≡ hashes_of links.old.items }
    ensures slot { OnOk result (2 * (length links.new.items + 1) ≤ length slots.new.items) }
    ensures room { OnOk result (vec_len links.new < vec_capacity links.new) }
{
    if 2 * (links.len() + 1) <= slots.len() {
        return links.reserve(1);
    }
    let room = slots.len().max(FEWEST_LINKS);
    let mut more_slots = vec![in alloc; None; 2 * room]?;
    let mut more_links = Vec::with_capacity(alloc, room)?;
    for link in links.iter() {
        append(&mut more_slots, &mut more_links, link.hash);
    }
    *slots = more_slots;
    *links = more_links;
    Ok(())
}

impl Chains {
    /// No hashes, which hold no memory.
    pub(crate) fn new(alloc: Global) -> Chains
        ensures { result ≡ [] }
    {
        Chains {
            slots: Vec::new(alloc),
            links: Vec::new(alloc),
        }
    }

    /// The first place, at or after one, that has the hash.
    pub(crate) fn next(&self, hash: u32, from: usize) -> Option<u32>
        ensures next { result ≡ next_place (λ h. h == hash) self.now from }
        ensures few { IfSome result (λ place. place + 1 < 2 ^ 32) }
    {
        next_of(self.slots.as_slice(), self.links.as_slice(), hash, from)
    }

    /// Makes room for one hash more, so that the next push takes no memory.
    pub(crate) fn reserve(&mut self, alloc: Global) -> Result<(), AllocError>
        ensures { self.new ≡ self.old }
    {
        make_room(alloc, &mut self.slots, &mut self.links)
    }

    /// Puts a hash at the end. Where memory runs out, or at 2^32 - 1 hashes, the list is as it was.
    pub(crate) fn push(&mut self, alloc: Global, hash: u32) -> Result<(), AllocError>
        ensures ok { OnOk result (self.new ≡ self.old ++ hash ∷ []) }
        ensures err { OnErr result (self.new ≡ self.old) }
    {
        if self.links.len() >= u32::MAX as usize {
            return Err(AllocError);
        }
        make_room(alloc, &mut self.slots, &mut self.links)?;
        append(&mut self.slots, &mut self.links, hash);
        Ok(())
    }
}

#[cfg(test)]
impl Chains {
    /// How many places the longest chain has.
    pub(crate) fn longest(&self, alloc: Global) -> Result<usize, AllocError> {
        let mut counts = vec![in alloc; 0usize; self.slots.len()]?;
        for link in self.links.iter() {
            if let Some(count) = counts.get_mut(link.hash as usize % self.slots.len().max(1)) {
                *count = count.saturating_add(1);
            }
        }
        Ok(counts.iter().copied().max().unwrap_or(0))
    }
}
