//! The body that tells what an import stored.
ghost use Rattle.std.specs.Prelude.{◌≡◌, ◌++◌, IfOk, OnOk};
ghost use Rattle.serde_json.specs.View.{view};
ghost use Rattle.serde_json.specs.Written.{compact_text};
ghost use Rattle.explorer_model.specs.Answer.{array_by};
ghost use Rattle.explorer_model.specs.Replies.{refusal_value, stored_body};

use crate::pieces::push_value;
use explorer_model::fault::Refusal;
use serde_json::{Value, json};
use std::alloc::{AllocError, Global};

/// The body of the reply to an import that stored so many games, where the journal has so many
/// batches then: compact JSON without a line end.
pub fn stored_body(
    alloc: Global,
    batches: u32,
    stored: u32,
    refused: &[Refusal],
) -> Result<Vec<u8>, AllocError>
    ensures { IfOk result (λ bytes. bytes.items ≡ stored_body batches stored refused.now) }
{
    let mut body = Vec::new(alloc);
    push_value(alloc, &mut body, b"{\"batches\":", &Value::from(batches))?;
    body.extend_from_slice(b",\"refused\":")?;
    push_refusals(alloc, &mut body, refused)?;
    push_value(alloc, &mut body, b",\"stored\":", &Value::from(stored))?;
    body.push(b'}')?;
    Ok(body)
}

/// Writes the refusals as an array, one after another, since there may be many.
fn push_refusals(alloc: Global, body: &mut Vec<u8>, refused: &[Refusal]) -> Result<(), AllocError>
    ensures { OnOk result (body.new.items
        ≡ body.old.items ++ compact_text (array_by refusal_value refused.now)) }
{
    body.push(b'[')?;
    let mut comma: &[u8] = b"";
    for refusal in refused {
        let value = refusal_value(alloc, refusal)?;
        push_value(alloc, body, comma, &value)?;
        comma = b",";
    }
    body.push(b']')?;
    Ok(())
}

fn refusal_value(alloc: Global, refusal: &Refusal) -> Result<Value, AllocError>
    ensures { IfOk result (λ value. view value ≡ refusal_value refusal.now) }
{
    json!(in alloc; {
        "place": refusal.place,
        "why": refusal.why.to_string(alloc)?
    })
}
