//! A key with room behind it.
ghost use Rattle.std.specs.Prelude.{◌≡◌, ◌≤◌, ◌-◌, ◌++◌, ℕ, IsTrue, length, take, drop};
ghost use Rattle.segment_blocks.specs.Encoded.{own_len, key_behind};

use crate::mark::Mark;
use std::marker::Model;
use tally_rows::PositionKey;

/// How many bytes a key has.
const KEY: usize = 34;

/// A key, and as many bytes behind it that tell nothing. With them a key's end is copied as 34 bytes
/// wherever it begins: copies of one length that is known take far less time.
#[derive(Drop)]
pub struct KeyRoom {
    bytes: [u8; 68],
}

impl Model for KeyRoom {
    ghost use Rattle.std.specs.Prelude.{List, ℕ, take};

    ghost Value = { List ℕ };

    ghost view = { λ r. take 34 r.bytes };
}

impl KeyRoom {
    /// The key with room behind it.
    pub fn of(key: &PositionKey) -> KeyRoom
        ensures { result ≡ key.now }
    {
        KeyRoom {
            bytes: widen_key(key),
        }
    }

    /// The key.
    pub fn key(&self) -> &PositionKey
        ensures key { result.now ≡ self.now }
        ensures long { length self.now ≡ 34 }
    {
        front_of(&self.bytes)
    }

    /// Makes the key of a mark from the key before it and the bytes of its own, the first ones of
    /// `tails`.
    #[inline(always)]
    pub fn complete(&mut self, mark: &Mark, tails: &[u8])
        requires { own_len mark.now ≤ length tails.now }
        ensures { self.new ≡ key_behind self.old mark.now tails.now }
    {
        put_behind(&mut self.bytes, mark, tails);
    }

    /// The key's bytes from the one of this number on, and then as many others that there are 34.
    pub fn end(&self, from: u8) -> &[u8]
        requires { from ≤ 34 }
        ensures end { take (34 - from) result.now ≡ drop from self.now }
        ensures long { length self.now ≡ 34 }
    {
        end_of(&self.bytes, from)
    }
}

/// The key and room behind it.
fn widen_key(key: &PositionKey) -> [u8; 68]
    ensures { take 34 result ≡ key.now }
{
    let mut bytes = [0u8; 68];
    bytes[..KEY].copy_from_slice(key);
    bytes
}

/// The first 34 bytes.
fn front_of(bytes: &[u8; 68]) -> &PositionKey
    ensures key { result.now ≡ take 34 bytes.now }
    ensures long { length (take 34 bytes.now) ≡ 34 }
{
    match bytes.split_first_chunk::<34>() {
        Some((key, _room)) => key,
        None => unreachable!(),
    }
}

/// Puts the bytes of a mark's own behind those that its key shares.
#[inline(always)]
fn put_behind(bytes: &mut [u8; 68], mark: &Mark, tails: &[u8])
    requires { own_len mark.now ≤ length tails.now }
    ensures { take 34 bytes.new ≡ key_behind (take 34 bytes.old) mark.now tails.now }
{
    if tails.len() < KEY {
        put_last(bytes, mark, tails);
        return;
    }
    let shared = usize::from(mark.shared);
    bytes[shared..shared + KEY].copy_from_slice(&tails[..KEY]);
}

/// The same where few bytes are left. Kept apart, since else both copies become one whose length is
/// not known.
#[inline(never)]
fn put_last(bytes: &mut [u8; 68], mark: &Mark, tails: &[u8])
    requires { own_len mark.now ≤ length tails.now }
    ensures { take 34 bytes.new ≡ key_behind (take 34 bytes.old) mark.now tails.now }
{
    let shared = usize::from(mark.shared);
    bytes[shared..KEY].copy_from_slice(&tails[..KEY - shared]);
}

/// 34 bytes from the one of this number on.
fn end_of(bytes: &[u8; 68], from: u8) -> &[u8]
    requires { from ≤ 34 }
    ensures end { take (34 - from) result.now ≡ drop from (take 34 bytes.now) }
    ensures long { length (take 34 bytes.now) ≡ 34 }
{
    let from = usize::from(from);
    &bytes[from..from + KEY]
}
