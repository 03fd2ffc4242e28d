//! Bytes in a fixed array.

/// The most bytes that are held.
pub const ROOM: usize = 2048;

/// Bytes in a fixed array. What finds no room is left out.
#[derive(Drop)]
pub struct Bytes {
    held: [u8; ROOM],
    len: usize,
}

impl Bytes {
    /// No byte.
    pub fn new() -> Bytes {
        Bytes {
            held: [0; ROOM],
            len: 0,
        }
    }

    /// The parts, one after the other.
    pub fn of(parts: &[&[u8]]) -> Bytes {
        let mut bytes = Bytes::new();
        for part in parts {
            bytes.add(part);
        }
        bytes
    }

    /// Adds more bytes.
    pub fn add(&mut self, more: &[u8]) {
        for byte in more {
            if let Some(place) = self.held.get_mut(self.len) {
                *place = *byte;
                self.len = self.len.saturating_add(1);
            }
        }
    }

    /// Sets the byte at a place that is held.
    pub fn set(&mut self, at: usize, byte: u8) {
        if at < self.len {
            if let Some(place) = self.held.get_mut(at) {
                *place = byte;
            }
        }
    }

    /// Turns these bits of the byte at a place that is held.
    pub fn turn(&mut self, at: usize, bits: u8) {
        if at < self.len {
            if let Some(place) = self.held.get_mut(at) {
                *place ^= bits;
            }
        }
    }

    /// How many bytes are held.
    pub fn len(&self) -> usize {
        self.len
    }

    /// All that are held.
    pub fn get(&self) -> &[u8] {
        self.front(self.len)
    }

    /// The first so many bytes.
    pub fn front(&self, len: usize) -> &[u8] {
        match self.held.get(..len) {
            Some(bytes) => bytes,
            None => &[],
        }
    }
}
