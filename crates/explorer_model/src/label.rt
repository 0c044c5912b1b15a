//! What batches are called.
ghost use Rattle.std.specs.Prelude.{◌≡◌, ◌≤◌, ◌==◌, true, false, length, nat_eq, IfSome, IfNone};
ghost use Rattle.std.specs.Cmp.{partial_equiv_from_equiv};
ghost use Rattle.std.specs.Cmp.Lexicographic.{pointwise, nat_list_eq_equiv};
ghost use Rattle.std.specs.List.{list_all};
ghost use Rattle.explorer_model.specs.Labels.{is_label, is_printing, no_label};

use arrayvec::ArrayString;
use std::marker::Model;
use std::str;

/// A text of at most 64 bytes, none of which is below 32 or 127. Contracts see it as its bytes.
#[derive(Clone, Debug, Drop)]
pub struct Label {
    text: ArrayString<64>,
}

impl Model for Label {
    ghost use Rattle.std.specs.Prelude.{◌≡◌, ℕ, List, true};
    ghost use Rattle.explorer_model.specs.Labels.{is_label};

    ghost Value = { List ℕ };

    ghost view = { λ label. label.text.bytes };

    ghost invariant = { λ label. is_label label.text.bytes ≡ true };
}

impl Label {
    /// The empty label, which batches have where none is given.
    pub fn none() -> Label
        ensures { result ≡ no_label }
    {
        Label {
            text: ArrayString::new(),
        }
    }

    /// The label of a text; `None` exactly where the text is none.
    pub fn of(text: &[u8]) -> Option<Label>
        ensures some { IfSome result (λ label. (label ≡ text.now) × (is_label text.now ≡ true)) }
        ensures none { IfNone result (is_label text.now ≡ false) }
    {
        if text.len() > 64 {
            return None;
        }
        if !are_printing(text) {
            return None;
        }
        let Ok(chars) = str::from_utf8(text) else {
            return None;
        };
        let mut text = ArrayString::new();
        text.push_str(chars);
        Some(Label { text })
    }

    /// The same label again, which takes no memory.
    pub fn copy(&self) -> Label
        ensures { result ≡ self.now }
    {
        let mut text = ArrayString::new();
        text.push_str(self.as_str());
        Label { text }
    }

    /// The label's text, of at most 64 bytes.
    pub fn as_str(&self) -> &str
        ensures text { result.now ≡ self.now }
        ensures label { is_label self.now ≡ true }
        ensures short { length self.now ≤ 64 }
    {
        self.text.as_str()
    }
}

impl PartialEq for Label {
    ghost eq = { pointwise nat_eq };

    ghost laws = { partial_equiv_from_equiv nat_list_eq_equiv };

    fn eq(&self, other: &Label) -> bool {
        self.as_str() == other.as_str()
    }
}

impl Eq for Label {
    ghost laws = { nat_list_eq_equiv };
}

/// No byte is a control character.
fn are_printing(text: &[u8]) -> bool
    ensures { result ≡ list_all is_printing text.now }
{
    text.iter().all(|byte| is_printing(*byte))
}

fn is_printing(byte: u8) -> bool
    ensures { result ≡ is_printing byte }
{
    byte >= 32 && byte != 127
}
