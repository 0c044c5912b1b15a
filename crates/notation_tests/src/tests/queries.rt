//! What query strings ask, and the first of their parameters that is malformed.
mod players;

ghost use Rattle.std.specs.Prelude.{◌<◌};

use explorer_model::archive::Month;
use explorer_model::chess::{Color, Position, Role};
use explorer_model::fault::Stop;
use explorer_model::query::{Parameter, Query};
use query_params::query;
use std::alloc::Global;

/// Query strings, and the parameter that is malformed first.
const MALFORMED: [(&str, Parameter); 31] = [
    ("variant=chess960", Parameter::Variant),
    ("variant=standard&variant=standard", Parameter::Variant),
    ("moves=x&variant=Standard", Parameter::Variant),
    ("fen=8/8/8/8/8/8/8/8+w+-+-", Parameter::Fen),
    ("fen=+", Parameter::Fen),
    ("fen=%ff", Parameter::Fen),
    ("play=e2e5&fen=x", Parameter::Fen),
    ("play=e2e5", Parameter::Play),
    ("play=e2e4,", Parameter::Play),
    ("play=e2e4,,e7e5", Parameter::Play),
    ("play=e2e4,e2e4", Parameter::Play),
    ("speeds=x&play=e2e4&play=e2e4", Parameter::Play),
    ("speeds=blitz,slow&ratings=5", Parameter::Speeds),
    ("speeds=blitz,,rapid", Parameter::Speeds),
    ("speeds=Blitz", Parameter::Speeds),
    ("ratings=,", Parameter::Ratings),
    ("ratings=1000,5", Parameter::Ratings),
    ("since=2020-13&until=x", Parameter::Since),
    ("since=2020-1", Parameter::Since),
    ("since=2020_01", Parameter::Since),
    ("since=20-0-01", Parameter::Since),
    ("since=2020-0\u{e9}", Parameter::Since),
    ("until=2020-00", Parameter::Until),
    ("moves=-1", Parameter::Moves),
    ("moves=3&moves=3", Parameter::Moves),
    ("moves=1000000", Parameter::Moves),
    ("moves=%2B5", Parameter::Moves),
    ("%6doves=%2D1", Parameter::Moves),
    ("history=yes&topGames=x", Parameter::TopGames),
    ("recentGames=1&recentGames=", Parameter::RecentGames),
    ("history=True", Parameter::History),
];

/// The parameter that is malformed first.
fn malformed_parameter(alloc: Global, text: &str) -> Option<Parameter> {
    match &query(alloc, text.as_bytes()) {
        Err(Stop::Fault(fault)) => Some(fault.name),
        _ => None,
    }
}

#[test]
fn names_the_first_malformed_parameter(rt: HostRuntime) {
    for (text, name) in MALFORMED {
        assert_eq!(rt; malformed_parameter(rt.alloc(), text), Some(name), "{text}");
    }
}

fn accepted_query(alloc: Global, text: &str) -> Option<Query> {
    query(alloc, text.as_bytes()).ok()
}

fn has_defaults(query: &Query) -> bool {
    let filter = &query.filter;
    let counts_all = filter.speeds == [true; 6]
        && filter.groups == [true; 9]
        && filter.since.is_none()
        && filter.until.is_none();
    let is_start = query.plays.len() == 0 && query.at.turn == Color::White;
    is_start
        && counts_all
        && query.moves == 12
        && query.top == 4
        && query.recent == 4
        && !query.history
}

#[test]
fn takes_defaults(rt: HostRuntime) {
    for text in [
        "",
        "&&",
        "colour=red&topGames=9&Moves=x&MOVES=x",
        "speeds=blitz,blitz,ultraBullet,bullet,rapid,classical,correspondence",
        "variant=&fen=&play=&speeds=&ratings=&since=&until=&moves=&topGames=&recentGames=&history=",
        "variant=standard&moves=12&topGames=999999&recentGames=4&history=false",
    ] {
        let query = accepted_query(rt.alloc(), text);
        assert!(rt;
            matches!(&query, Some(query) if has_defaults(query)),
            "{text}"
        );
    }
}

const FILTERED: &str =
    "speeds=blitz,ultraBullet,blitz&ratings=2500%2c0&since=2020-02&until=0000-12&\
     moves=999999&topGames=0&recentGames=003&history=true";

const FEBRUARY: Month = Month {
    year: 2020,
    month: 2,
};

const FIRST_DECEMBER: Month = Month { year: 0, month: 12 };

fn has_filters(query: &Query) -> bool {
    let filter = &query.filter;
    filter.speeds == [true, false, true, false, false, false]
        && filter.groups == [true, false, false, false, false, false, false, false, true]
        && filter.since == Some(FEBRUARY)
        && filter.until == Some(FIRST_DECEMBER)
}

#[test]
fn reads_filters(rt: HostRuntime) {
    let query = accepted_query(rt.alloc(), FILTERED);
    assert!(rt; matches!(&query, Some(query) if has_filters(query)));
    assert!(rt;
        matches!(&query, Some(query) if query.moves == 999999
            && query.top == 0
            && query.recent == 3
            && query.history)
    );
}

fn has_king(position: &Position, square: usize) -> bool
    requires { square < 64 }
{
    let man = position.squares[square];
    matches!(man, Some(man) if man.role == Role::King)
}

// The rook on d8 looks at d1, over which the king would go; the one on b8 does not.
const BARRED: &str = "fen=3rk3/8/8/8/8/8/8/R3K3+w+Q+-+0+1&play=e1c1";

const CASTLES: &str = "fen=1r2k3/8/8/8/8/8/8/R3K3+w+Q+-+0+1&play=e1c1";

#[test]
fn reads_positions(rt: HostRuntime) {
    assert_eq!(rt;
        malformed_parameter(rt.alloc(), BARRED),
        Some(Parameter::Play)
    );
    let castled = accepted_query(rt.alloc(), CASTLES);
    assert!(rt;
        matches!(&castled, Some(query) if query.at.turn == Color::Black
            && has_king(&query.at, 2)
            && has_king(&query.root, 4))
    );
}

#[test]
fn reads_lines(rt: HostRuntime) {
    for text in ["play=e2e4,c7c5", "pl%61y=e2e4%2Cc7c5", "play=%65%32e4,c7c5"] {
        let sicilian = accepted_query(rt.alloc(), text);
        assert!(rt;
            matches!(&sicilian, Some(query) if query.plays.len() == 2
                && query.at.squares[34].is_some()
                && query.root.squares[34].is_none())
        );
    }
}
