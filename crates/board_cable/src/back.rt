//! What is kept back of what boards send, until it is known whose it is.
ghost use Rattle.std.specs.Prelude.{◌≡◌, ◌++◌, [], None, Some, OnOk, if◌then◌else◌};
ghost use Rattle.board_cable.specs.Keeping.{HasBack, are_same, aside_by, ends_aside, ends_held, held_by, limited, owner_by, released_by};

use crate::happened::{What, ends_aside, ends_held};
use crate::whose::Handling;
use std::alloc::{AllocError, Global};

/// The most bytes that are held, and that are kept aside.
const LIMIT: usize = 1_048_576;

/// What is kept back.
#[derive(Drop)]
pub struct Back {
    /// Of a board that isn't known yet.
    held: Vec<u8>,
    /// Of another board.
    aside: Vec<u8>,
    /// That board's number.
    owner: Option<[u8; 5]>,
    /// What is the game's now.
    released: Vec<u8>,
}

fn clear_if(ends: bool, bytes: &mut Vec<u8>)
    ensures { bytes.new.items ≡ (if ends then [] else bytes.old.items) }
{
    if ends {
        bytes.clear();
    }
}

fn limit(bytes: &mut Vec<u8>)
    ensures { bytes.new.items ≡ limited bytes.old.items }
{
    if bytes.len() > LIMIT {
        bytes.clear();
    }
}

fn is_same(number: &[u8; 5], other: &[u8; 5]) -> bool
    ensures { result ≡ are_same (Some number.now) (Some other.now) }
{
    number.as_slice() == other.as_slice()
}

fn are_same(number: &Option<[u8; 5]>, other: &Option<[u8; 5]>) -> bool
    ensures { result ≡ are_same number.now other.now }
{
    let Some(number) = number else {
        return false;
    };
    match other {
        None => false,
        Some(other) => is_same(number, other),
    }
}

impl Back {
    /// Nothing is kept back. Takes no memory.
    pub fn new(alloc: Global) -> Back
        ensures { HasBack result [] }
    {
        Back {
            held: Vec::new(alloc),
            aside: Vec::new(alloc),
            owner: None,
            released: Vec::new(alloc),
        }
    }

    /// Drops what ends here.
    fn drop_at(&mut self, what: What)
        ensures held { self.new.held.items ≡ (if ends_held what then [] else self.old.held.items) }
        ensures aside { self.new.aside.items ≡ (if ends_aside what then [] else self.old.aside.items) }
        ensures owner { self.new.owner ≡ self.old.owner }
        ensures released { self.new.released.items ≡ [] }
    {
        clear_if(ends_held(what), &mut self.held);
        clear_if(ends_aside(what), &mut self.aside);
        self.released.clear();
    }

    /// Gives the game what is its own: what was kept aside, if that is its board, and what was held.
    fn release(&mut self, own: &Option<[u8; 5]>) -> Result<(), AllocError>
        requires { self.old.released.items ≡ [] }
        ensures held { OnOk result (self.new.held.items ≡ []) }
        ensures aside { OnOk result (self.new.aside.items ≡ []) }
        ensures owner { OnOk result (self.new.owner ≡ None) }
        ensures released { OnOk result (self.new.released.items
            ≡ (if are_same self.old.owner own.now then self.old.aside.items else []) ++ self.old.held.items) }
    {
        if are_same(&self.owner, own) {
            self.released.extend_from_slice(self.aside.as_slice())?;
        }
        self.released.extend_from_slice(self.held.as_slice())?;
        self.held.clear();
        self.aside.clear();
        self.owner = None;
        Ok(())
    }

    /// Keeps aside what another board has sent.
    fn put_aside(&mut self, number: [u8; 5]) -> Result<(), AllocError>
        ensures held { OnOk result (self.new.held.items ≡ []) }
        ensures aside { OnOk result (self.new.aside.items
            ≡ limited ((if are_same self.old.owner (Some number) then self.old.aside.items else []) ++ self.old.held.items)) }
        ensures owner { OnOk result (self.new.owner ≡ Some number) }
        ensures released { OnOk result (self.new.released.items ≡ self.old.released.items) }
    {
        let owner = Some(number);
        if !are_same(&self.owner, &owner) {
            self.aside.clear();
        }
        self.aside.extend_from_slice(self.held.as_slice())?;
        limit(&mut self.aside);
        self.held.clear();
        self.owner = owner;
        Ok(())
    }

    /// Takes what the board has sent, as it is handled.
    pub fn take(
        &mut self,
        what: What,
        handling: Handling,
        own: &Option<[u8; 5]>,
        sent: &[u8],
    ) -> Result<(), AllocError>
        ensures held { OnOk result (self.new.held.items ≡ held_by handling ((if ends_held what then [] else self.old.held.items) ++ sent.now)) }
        ensures aside { OnOk result (self.new.aside.items ≡ aside_by handling self.old.owner (if ends_aside what then [] else self.old.aside.items)
            ((if ends_held what then [] else self.old.held.items) ++ sent.now)) }
        ensures owner { OnOk result (self.new.owner ≡ owner_by handling self.old.owner) }
        ensures released { OnOk result (self.new.released.items ≡ released_by handling own.now self.old.owner
            (if ends_aside what then [] else self.old.aside.items) (if ends_held what then [] else self.old.held.items)) }
    {
        self.drop_at(what);
        match handling {
            Handling::Keep => self.release(own),
            Handling::Hold => {
                self.held.extend_from_slice(sent)?;
                limit(&mut self.held);
                Ok(())
            }
            Handling::Other(number) => {
                self.held.extend_from_slice(sent)?;
                self.put_aside(number)
            }
        }
    }

    /// What the game gets of what was kept back.
    pub fn released(&self) -> &[u8]
        ensures { result.now ≡ self.now.released.items }
    {
        self.released.as_slice()
    }

    /// What is kept aside of another board.
    pub fn aside(&self) -> &[u8]
        ensures { result.now ≡ self.now.aside.items }
    {
        self.aside.as_slice()
    }
}
