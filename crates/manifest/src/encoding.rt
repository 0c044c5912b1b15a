//! The payload of a batch.
ghost use Rattle.std.specs.Prelude.{◌≡◌, ◌≤◌, ◌<◌, ◌+◌, ◌^◌, ◌++◌, length, sum_by, IfOk, OnOk};
ghost use Rattle.std.specs.List.{All};
ghost use Rattle.explorer_model.specs.Imports.{group_limit};
ghost use Rattle.explorer_model.specs.StoreFile.{text_field, texts_field, payload_of, IsStorable};

use byteorder::{ByteOrder, LittleEndian};
use explorer_model::archive::{Batch, Bytes};
use std::alloc::{AllocError, Global};

/// Encodes a batch, in as much room as its payload takes.
pub(crate) fn encode(alloc: Global, batch: &Batch) -> Result<Vec<u8>, AllocError>
    requires { IsStorable batch.now }
    ensures { IfOk result (λ payload. payload.items ≡ payload_of batch.now) }
{
    let label = batch.label.as_str().as_bytes();
    let texts = batch.texts.as_slice();
    let mut payload = Vec::with_capacity(alloc, 1 + label.len() + size_of_texts(texts))?;
    payload.push(label.len() as u8)?;
    payload.extend_from_slice(label)?;
    push_texts(&mut payload, texts)?;
    Ok(payload)
}

/// Puts texts behind their number.
fn push_texts(payload: &mut Vec<u8>, texts: &[Bytes]) -> Result<(), AllocError>
    requires few { length texts.now ≤ group_limit }
    requires short { All (λ text. length text < 2 ^ 32) texts.now }
    ensures { OnOk result (payload.new.items ≡ payload.old.items ++ texts_field texts.now) }
{
    let mut count = [0; 2];
    LittleEndian::write_u16(&mut count, texts.len() as u16);
    payload.extend_from_slice(&count)?;
    for text in texts {
        push_text(payload, text)?;
    }
    Ok(())
}

/// How many bytes texts have behind their number.
fn size_of_texts(texts: &[Bytes]) -> usize
    requires few { length texts.now ≤ group_limit }
    requires short { sum_by (λ text. length text) texts.now < 2 ^ 32 }
    ensures { result ≡ length (texts_field texts.now) }
{
    2 + 4 * texts.len() + size_of_all(texts)
}

pub(crate) fn size_of_all(texts: &[Bytes]) -> usize
    requires { sum_by (λ text. length text) texts.now < 2 ^ 32 }
    ensures { result ≡ sum_by (λ text. length text) texts.now }
{
    texts.iter().map(|text| text.len()).sum()
}

/// Puts a text behind its length.
fn push_text(payload: &mut Vec<u8>, text: &Bytes) -> Result<(), AllocError>
    requires { length text.now < 2 ^ 32 }
    ensures { OnOk result (payload.new.items ≡ payload.old.items ++ text_field text.now) }
{
    let mut size = [0; 4];
    LittleEndian::write_u32(&mut size, text.len() as u32);
    payload.extend_from_slice(&size)?;
    payload.extend_from_slice(text.as_slice())
}
