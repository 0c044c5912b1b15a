//! The tags of a sample game.
ghost use Rattle.std.specs.Prelude.{◌≡◌, ◌+◌, ◌≤◌, ◌<◌, ◌++◌, ◌∷◌, [], OnOk, length, codes, decimal, slice_index_or};
ghost use Rattle.sample_games.specs.Samples.{results, time_controls, header_drawn, behind_header, digit, id_text, date_text, tag_line, header_text};
ghost use Rattle.sample_games.specs.Movetexts.{header};

use crate::draws::draw;
use itoa::Buffer;
use rand_pcg::Lcg64Xsh32;
use std::alloc::AllocError;

/// What is drawn of a game besides its moves; the month is 1 to 12.
#[derive(Clone, Copy)]
pub struct Header {
    pub result: &'static [u8],
    pub white_rating: u32,
    pub black_rating: u32,
    pub month: u32,
    pub time_control: &'static [u8],
}

impl Header {
    /// Draws what the tags of a sample game say.
    pub fn draw(draws: &mut Lcg64Xsh32) -> Header
        ensures drawn { header result ≡ header_drawn draws.old }
        ensures behind { draws.new ≡ behind_header draws.old }
        ensures short { (length result.result.now ≤ 7) × (length result.time_control.now ≤ 6) }
    {
        Header {
            result: result_text(draw(draws, 3)),
            white_rating: 800 + draw(draws, 2000),
            black_rating: 800 + draw(draws, 2000),
            month: 1 + draw(draws, 12),
            time_control: time_control_text(draw(draws, 6)),
        }
    }

    /// Appends the nine tags of the game of this number, each on a line.
    pub fn write(&self, text: &mut Vec<u8>, index: u32) -> Result<(), AllocError>
        requires { (length self.now.result.now ≤ 7) × (length self.now.time_control.now ≤ 6) }
        ensures text { OnOk result
            (text.new.items ≡ text.old.items ++ header_text index (header self.now)) }
        ensures room { OnOk result (length text.new.items ≤ length text.old.items + 300) }
    {
        push_tag(text, b"Event", b"", b"Rated sample game")?;
        push_tag(text, b"Site", b"https://lichess.org/", &id_text(index))?;
        push_number_tag(text, b"White", b"w", index % 100)?;
        push_number_tag(text, b"Black", b"b", index % 100)?;
        push_tag(text, b"Result", b"", self.result)?;
        push_tag(text, b"UTCDate", b"", &date_text(self.month))?;
        push_number_tag(text, b"WhiteElo", b"", self.white_rating)?;
        push_number_tag(text, b"BlackElo", b"", self.black_rating)?;
        push_tag(text, b"TimeControl", b"", self.time_control)?;
        Ok(())
    }
}

fn result_text(number: u32) -> &'static [u8]
    requires { number < 3 }
    ensures text { result.now ≡ slice_index_or results number [] }
    ensures short { length result.now ≤ 7 }
{
    match number {
        0 => b"1-0",
        1 => b"0-1",
        _ => b"1/2-1/2",
    }
}

fn time_control_text(number: u32) -> &'static [u8]
    requires { number < 6 }
    ensures text { result.now ≡ slice_index_or time_controls number [] }
    ensures short { length result.now ≤ 6 }
{
    match number {
        0 => b"15+0",
        1 => b"60+0",
        2 => b"180+2",
        3 => b"600+0",
        4 => b"1800+0",
        _ => b"-",
    }
}

/// `s` and the number in seven digits.
fn id_text(index: u32) -> [u8; 8]
    ensures { result ≡ id_text index }
{
    [
        b's',
        digit(index, 1_000_000),
        digit(index, 100_000),
        digit(index, 10_000),
        digit(index, 1_000),
        digit(index, 100),
        digit(index, 10),
        digit(index, 1),
    ]
}

/// The fifteenth of a month of 2020.
fn date_text(month: u32) -> [u8; 10]
    ensures { result ≡ date_text month }
{
    let [tens, ones] = [digit(month, 10), digit(month, 1)];
    [b'2', b'0', b'2', b'0', b'.', tens, ones, b'.', b'1', b'5']
}

/// The decimal digit of the number that counts this unit.
fn digit(number: u32, unit: u32) -> u8
    requires { 0 < unit }
    ensures { result ≡ digit number unit }
{
    b'0' + (number / unit % 10) as u8
}

/// Appends a tag pair on a line of its own; its value comes in two parts.
fn push_tag(text: &mut Vec<u8>, name: &[u8], front: &[u8], back: &[u8]) -> Result<(), AllocError>
    ensures text { OnOk result
        (text.new.items ≡ text.old.items ++ tag_line name.now (front.now ++ back.now)) }
    ensures room { OnOk result (length text.new.items
        ≡ length text.old.items + length name.now + length front.now + length back.now + 6) }
{
    text.push(b'[')?;
    text.extend_from_slice(name)?;
    text.extend_from_slice(b" \"")?;
    text.extend_from_slice(front)?;
    text.extend_from_slice(back)?;
    text.extend_from_slice(b"\"]\n")
}

/// Appends a tag pair whose value ends with a number.
fn push_number_tag(
    text: &mut Vec<u8>,
    name: &[u8],
    front: &[u8],
    number: u32,
) -> Result<(), AllocError>
    ensures text { OnOk result
        (text.new.items ≡ text.old.items ++ tag_line name.now (front.now ++ decimal number)) }
    ensures room { OnOk result (length text.new.items
        ≤ length text.old.items + length name.now + length front.now + 16) }
{
    let mut buffer = Buffer::new();
    push_tag(text, name, front, buffer.format(number).as_bytes())
}
