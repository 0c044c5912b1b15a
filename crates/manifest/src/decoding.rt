//! The batch of a payload. A payload that is off the form has none.
ghost use Rattle.std.specs.Prelude.{◌≡◌, ◌&&◌, nat_le, IfOk, IfSome};
ghost use Rattle.std.specs.Int.{w16, w32};
ghost use Rattle.std.specs.Option.{option_map};
ghost use Rattle.explorer_model.specs.Cuts.{text_limit};
ghost use Rattle.explorer_model.specs.Imports.{group_limit};
ghost use Rattle.explorer_model.specs.StoreFile.{payload_of, number_at, text_at, texts_in, all_texts_in, label_at, batch_in, IsStorable};

use crate::format::{TEXT_LIMIT, TEXTS_LIMIT};
use byteorder::{ByteOrder, LittleEndian};
use explorer_model::archive::{Batch, Bytes, Texts};
use explorer_model::label::Label;
use std::alloc::{AllocError, Global};

/// Decodes a payload. No memory is taken for a length that the payload does not hold.
pub(crate) fn decode(alloc: Global, payload: &[u8]) -> Result<Option<Batch>, AllocError>
    ensures found { IfOk result (λ found. found ≡ batch_in payload.now) }
    ensures stored { IfOk result (λ found. IfSome found
        (λ batch. IsStorable batch × (payload.now ≡ payload_of batch))) }
{
    let Some((label, rest)) = label_of(payload) else {
        return Ok(None);
    };
    let Some(texts) = all_texts_of(alloc, rest)? else {
        return Ok(None);
    };
    Ok(Some(Batch { label, texts }))
}

/// Reads a label behind its length.
fn label_of(bytes: &[u8]) -> Option<(Label, &[u8])>
    ensures { option_map (λ x. (x.0, x.1.now)) result ≡ label_at bytes.now }
{
    if bytes.is_empty() {
        return None;
    }
    let count = bytes[0] as usize;
    let rest = &bytes[1..];
    if rest.len() < count {
        return None;
    }
    let (label, rest) = rest.split_at(count);
    match Label::of(label) {
        Some(label) => Some((label, rest)),
        None => None,
    }
}

/// Reads texts behind their number, behind which nothing stands.
pub(crate) fn all_texts_of(alloc: Global, bytes: &[u8]) -> Result<Option<Texts>, AllocError>
    ensures { IfOk result (λ found. found ≡ all_texts_in bytes.now) }
{
    let Some((count, rest)) = count_at(bytes) else {
        return Ok(None);
    };
    texts_of(alloc, count, rest)
}

/// Reads so many texts, behind which nothing stands.
fn texts_of(alloc: Global, count: u16, bytes: &[u8]) -> Result<Option<Texts>, AllocError>
    ensures { IfOk result (λ found. found ≡ texts_in count bytes.now) }
{
    let mut texts = Vec::new(alloc);
    let mut rest = bytes;
    for _ in 0..count {
        let Some((text, behind)) = text_of(alloc, rest)? else {
            return Ok(None);
        };
        texts.push(text)?;
        rest = behind;
    }
    if !rest.is_empty() {
        return Ok(None);
    }
    Ok(Some(Texts::from_vec(texts)))
}

/// Reads a text behind its length.
fn text_of(alloc: Global, bytes: &[u8]) -> Result<Option<(Bytes, &[u8])>, AllocError>
    ensures { IfOk result (λ found. option_map (λ x. (x.0, x.1.now)) found ≡ text_at bytes.now) }
{
    let Some((size, rest)) = size_at(bytes) else {
        return Ok(None);
    };
    let size = size as usize;
    if rest.len() < size {
        return Ok(None);
    }
    let (text, behind) = rest.split_at(size);
    let text = text.to_vec(alloc)?;
    Ok(Some((Bytes::from_vec(text), behind)))
}

/// The number of texts, and what follows it.
fn count_at(bytes: &[u8]) -> Option<(u16, &[u8])>
    ensures { option_map (λ x. (x.0, x.1.now)) result ≡ number_at w16 group_limit bytes.now }
{
    if bytes.len() < 2 {
        return None;
    }
    let (number, rest) = bytes.split_at(2);
    let count = LittleEndian::read_u16(number);
    if !is_allowed(count as usize, TEXTS_LIMIT) {
        return None;
    }
    Some((count, rest))
}

/// The length of a text, and what follows it.
fn size_at(bytes: &[u8]) -> Option<(u32, &[u8])>
    ensures { option_map (λ x. (x.0, x.1.now)) result ≡ number_at w32 text_limit bytes.now }
{
    if bytes.len() < 4 {
        return None;
    }
    let (number, rest) = bytes.split_at(4);
    let size = LittleEndian::read_u32(number);
    if !is_allowed(size as usize, TEXT_LIMIT) {
        return None;
    }
    Some((size, rest))
}

fn is_allowed(number: usize, most: usize) -> bool
    ensures { result ≡ (nat_le 1 number && nat_le number most) }
{
    number >= 1 && number <= most
}
