//! The words of report lines and of answers, as their values print themselves.

ghost use Rattle.std.specs.Prelude.{◌≡◌, Some};

use crate::fault::{GameFault, TagFault, TagName, Why};
use crate::opening::BookCause;
use crate::player::PlayerParameter;
use crate::query::Parameter;
use std::fmt;

impl TagName {
    ghost use Rattle.explorer_model.specs.Refusals.{tag_text};

    /// The name as PGN spells it.
    pub fn as_str(self) -> &'static str
        ensures { result.now ≡ tag_text self }
    {
        match self {
            TagName::Event => "Event",
            TagName::Site => "Site",
            TagName::White => "White",
            TagName::Black => "Black",
            TagName::Result => "Result",
            TagName::WhiteElo => "WhiteElo",
            TagName::BlackElo => "BlackElo",
            TagName::TimeControl => "TimeControl",
            TagName::UtcDate => "UTCDate",
            TagName::Date => "Date",
        }
    }
}

impl fmt::Display for TagName {
    ghost use Rattle.explorer_model.specs.Refusals.{tag_text};

    ghost output = { λ name. Some (tag_text name) };

    fn fmt<W: fmt::Write>(&self, f: &mut fmt::Formatter<W>) -> fmt::Result {
        f.write_str(self.as_str())
    }
}

impl fmt::Display for TagFault {
    ghost use Rattle.explorer_model.specs.Refusals.{tag_fault_text};

    ghost output = { λ fault. Some (tag_fault_text fault) };

    fn fmt<W: fmt::Write>(&self, f: &mut fmt::Formatter<W>) -> fmt::Result {
        match self {
            TagFault::Missing { name } => write!(f, "Missing {name}"),
            TagFault::Bad { name } => write!(f, "Bad {name}"),
            TagFault::NotStandard => f.write_str("NotStandard"),
            TagFault::SetUp => f.write_str("SetUp"),
            TagFault::UnknownResult => f.write_str("UnknownResult"),
        }
    }
}

impl fmt::Display for GameFault {
    ghost use Rattle.explorer_model.specs.Refusals.{game_fault_text};

    ghost output = { λ fault. Some (game_fault_text fault) };

    fn fmt<W: fmt::Write>(&self, f: &mut fmt::Formatter<W>) -> fmt::Result {
        match self {
            GameFault::Lex { place } => write!(f, "Lex {place}"),
            GameFault::Tag(fault) => write!(f, "{fault}"),
            GameFault::BadSetUp { field } => write!(f, "BadSetUp {field}"),
            GameFault::NoTermination => f.write_str("NoTermination"),
            GameFault::ResultDiffers => f.write_str("ResultDiffers"),
            GameFault::TooManyPlies => f.write_str("TooManyPlies"),
            GameFault::NotSan { ply, place } => write!(f, "NotSan {ply} {place}"),
            GameFault::Illegal { ply, place } => write!(f, "Illegal {ply} {place}"),
            GameFault::Ambiguous { ply, place } => write!(f, "Ambiguous {ply} {place}"),
        }
    }
}

impl fmt::Display for Why {
    ghost use Rattle.explorer_model.specs.Refusals.{why_text};

    ghost output = { λ why. Some (why_text why) };

    fn fmt<W: fmt::Write>(&self, f: &mut fmt::Formatter<W>) -> fmt::Result {
        match self {
            Why::Preamble => f.write_str("Preamble"),
            Why::TooLong { length } => write!(f, "TooLong {length}"),
            Why::Game(fault) => write!(f, "{fault}"),
            Why::Twice { first } => write!(f, "Twice {first}"),
            Why::Repeated { number } => write!(f, "Repeated {number}"),
        }
    }
}

impl Parameter {
    ghost use Rattle.explorer_model.specs.Query.{parameter_text};

    /// The name as a query string spells it.
    pub fn as_str(self) -> &'static str
        ensures { result.now ≡ parameter_text self }
    {
        match self {
            Parameter::Variant => "variant",
            Parameter::Fen => "fen",
            Parameter::Play => "play",
            Parameter::Speeds => "speeds",
            Parameter::Ratings => "ratings",
            Parameter::Since => "since",
            Parameter::Until => "until",
            Parameter::Moves => "moves",
            Parameter::TopGames => "topGames",
            Parameter::RecentGames => "recentGames",
            Parameter::History => "history",
        }
    }
}

impl fmt::Display for Parameter {
    ghost use Rattle.explorer_model.specs.Query.{parameter_text};

    ghost output = { λ name. Some (parameter_text name) };

    fn fmt<W: fmt::Write>(&self, f: &mut fmt::Formatter<W>) -> fmt::Result {
        f.write_str(self.as_str())
    }
}

impl PlayerParameter {
    ghost use Rattle.explorer_model.specs.Query.{player_parameter_text};

    /// The name as a query string spells it.
    pub fn as_str(self) -> &'static str
        ensures { result.now ≡ player_parameter_text self }
    {
        match self {
            PlayerParameter::Player => "player",
            PlayerParameter::Color => "color",
            PlayerParameter::Modes => "modes",
            PlayerParameter::Common(name) => name.as_str(),
        }
    }
}

impl fmt::Display for PlayerParameter {
    ghost use Rattle.explorer_model.specs.Query.{player_parameter_text};

    ghost output = { λ name. Some (player_parameter_text name) };

    fn fmt<W: fmt::Write>(&self, f: &mut fmt::Formatter<W>) -> fmt::Result {
        f.write_str(self.as_str())
    }
}

impl BookCause {
    ghost use Rattle.explorer_model.specs.Refusals.{book_cause_text};

    /// The word that names the cause.
    pub fn as_str(self) -> &'static str
        ensures { result.now ≡ book_cause_text self }
    {
        match self {
            BookCause::NotThree => "NotThree",
            BookCause::NotUtf8 => "NotUtf8",
            BookCause::TooLong => "TooLong",
            BookCause::BadMove => "BadMove",
        }
    }
}

impl fmt::Display for BookCause {
    ghost use Rattle.explorer_model.specs.Refusals.{book_cause_text};

    ghost output = { λ cause. Some (book_cause_text cause) };

    fn fmt<W: fmt::Write>(&self, f: &mut fmt::Formatter<W>) -> fmt::Result {
        f.write_str(self.as_str())
    }
}
