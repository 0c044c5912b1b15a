//! Pieces of a text, up to bytes that end them.
ghost use Rattle.std.specs.Prelude.{◌≡◌, ◌==◌, ◌≤◌, ◌∷◌, length};
ghost use Rattle.std.specs.List.{slice_split};
ghost use Rattle.std.specs.Option.{option_copied};
ghost use Rattle.explorer_model.specs.Openings.{lines_of, without_return};
ghost use Rattle.opening_names.specs.Reading.{IsPlace, lines_left, pieces_left, size_left};

/// The first piece, and what stands behind the byte that ends it, if one does.
pub fn split_piece(text: &[u8], end: u8) -> (&[u8], Option<&[u8]>)
    ensures pieces { slice_split (λ b. b == end) text.now
        ≡ result.0.now ∷ pieces_left (λ b. b == end) (option_copied result.1) }
    ensures shorter { size_left (option_copied result.1) ≤ length text.now }
{
    match first_place(text, end) {
        None => (text, None),
        Some(at) => (&text[..at], Some(&text[at + 1..])),
    }
}

/// The place of the first such byte.
fn first_place(text: &[u8], end: u8) -> Option<usize>
    ensures { IsPlace (λ b. b == end) text.now result }
{
    for (at, byte) in text.iter().enumerate() {
        if is_end(*byte, end) {
            return Some(at);
        }
    }
    None
}

fn is_end(byte: u8, end: u8) -> bool
    ensures { result ≡ (byte == end) }
{
    byte == end
}

/// The first line, and what stands behind its end, if it has one.
pub fn split_line(text: &[u8]) -> (&[u8], Option<&[u8]>)
    ensures lines { lines_of text.now ≡ result.0.now ∷ lines_left (option_copied result.1) }
    ensures shorter { size_left (option_copied result.1) ≤ length text.now }
{
    let (line, rest) = split_piece(text, b'\n');
    match rest {
        None => (line, None),
        Some(more) => (without_return(line), Some(more)),
    }
}

/// The line without a byte 13 at its end.
fn without_return(line: &[u8]) -> &[u8]
    ensures { result.now ≡ without_return line.now }
{
    match line.split_last() {
        None => line,
        Some((last, rest)) => { if is_end(*last, 13) { rest } else { line } }
    }
}
