//! What query strings ask of a player's games, and the first of their parameters that is malformed.
use explorer_model::chess::Color;
use explorer_model::fault::Stop;
use explorer_model::player::{PlayerParameter, PlayerQuery};
use explorer_model::query::Parameter;
use query_params::player_query;
use std::alloc::Global;
use std::test::Fail;

/// The parameter that is malformed first.
fn malformed_parameter(alloc: Global, text: &str) -> Option<PlayerParameter> {
    match &player_query(alloc, text.as_bytes()) {
        Err(Stop::Fault(fault)) => Some(fault.name),
        _ => None,
    }
}

/// Query strings, and the parameter that is malformed first.
const MALFORMED: [(&str, PlayerParameter); 21] = [
    ("", PlayerParameter::Player),
    ("color=white", PlayerParameter::Player),
    ("player=&color=white", PlayerParameter::Player),
    ("Player=Ann&color=white", PlayerParameter::Player),
    ("player=Ann&player=Ann&color=white", PlayerParameter::Player),
    ("player=&player=Ann&color=white", PlayerParameter::Player),
    ("player=Ann", PlayerParameter::Color),
    ("player=Ann&color=", PlayerParameter::Color),
    ("player=Ann&color=White", PlayerParameter::Color),
    ("player=Ann&color=+black", PlayerParameter::Color),
    ("player=Ann&color=white&color=white", PlayerParameter::Color),
    ("player=Ann&color=white&modes=Rated", PlayerParameter::Modes),
    (
        "player=Ann&color=white&modes=rated,",
        PlayerParameter::Modes,
    ),
    ("player=Ann&color=white&modes=,", PlayerParameter::Modes),
    (
        "player=Ann&color=white&modes=rated,,casual",
        PlayerParameter::Modes,
    ),
    (
        "player=Ann&color=white&modes=rated&modes=casual",
        PlayerParameter::Modes,
    ),
    (
        "player=Ann&color=white&fen=8/8/8/8/8/8/8/8+w+-+-",
        PlayerParameter::Common(Parameter::Fen),
    ),
    (
        "player=Ann&color=white&play=e2e4,e2e4",
        PlayerParameter::Common(Parameter::Play),
    ),
    (
        "player=Ann&color=white&since=2020-1",
        PlayerParameter::Common(Parameter::Since),
    ),
    (
        "player=Ann&color=white&moves=1000000",
        PlayerParameter::Common(Parameter::Moves),
    ),
    (
        "player=Ann&color=white&recentGames=1&recentGames=",
        PlayerParameter::Common(Parameter::RecentGames),
    ),
];

#[test]
fn names_the_first_malformed_parameter(rt: HostRuntime) {
    for (text, name) in MALFORMED {
        assert_eq!(rt; malformed_parameter(rt.alloc(), text), Some(name), "{text}");
    }
}

/// What makes a parameter malformed behind a player and a colour, in the order in which the
/// parameters are judged.
const FAULTS: [(&str, PlayerParameter); 11] = [
    ("player=Bob", PlayerParameter::Player),
    ("color=black", PlayerParameter::Color),
    (
        "variant=atomic",
        PlayerParameter::Common(Parameter::Variant),
    ),
    ("fen=x", PlayerParameter::Common(Parameter::Fen)),
    ("play=e2e5", PlayerParameter::Common(Parameter::Play)),
    ("speeds=slow", PlayerParameter::Common(Parameter::Speeds)),
    ("modes=blitz", PlayerParameter::Modes),
    ("since=2020", PlayerParameter::Common(Parameter::Since)),
    ("until=2020-13", PlayerParameter::Common(Parameter::Until)),
    ("moves=all", PlayerParameter::Common(Parameter::Moves)),
    (
        "recentGames=-1",
        PlayerParameter::Common(Parameter::RecentGames),
    ),
];

#[test]
fn names_the_first_of_each_two(rt: HostRuntime) -> Result<(), Fail> {
    let alloc = rt.alloc();
    for (place, (fault, name)) in FAULTS.iter().enumerate() {
        for (other, _) in &FAULTS[place..] {
            let text = format!(in alloc; "player=Ann&color=white&{other}&{fault}")?;
            assert_eq!(rt;
                malformed_parameter(alloc, text.as_str()),
                Some(*name),
                "{text}"
            );
            let text = format!(in alloc; "player=Ann&color=white&{fault}&{other}")?;
            assert_eq!(rt;
                malformed_parameter(alloc, text.as_str()),
                Some(*name),
                "{text}"
            );
        }
    }
    Ok(())
}

fn accepted_query(alloc: Global, text: &str) -> Option<PlayerQuery> {
    player_query(alloc, text.as_bytes()).ok()
}

/// What is asked of all games from the start.
fn has_defaults(asked: &PlayerQuery) -> bool {
    let query = &asked.query;
    let filter = &query.filter;
    let counts_all = filter.speeds == [true; 6]
        && filter.groups == [true; 9]
        && filter.since.is_none()
        && filter.until.is_none();
    let is_start = query.plays.len() == 0 && query.at.turn == Color::White;
    is_start
        && counts_all
        && query.moves == 12
        && query.top == 0
        && query.recent == 4
        && !query.history
}

/// Query strings with the player, the colour and the modes that they ask for.
const ASKED: [(&str, &str, Color, [bool; 2]); 9] = [
    ("player=ANN&color=white", "ANN", Color::White, [true, true]),
    (
        "color=black&player=%ff",
        "\u{fffd}",
        Color::Black,
        [true, true],
    ),
    (
        "player=%C3%84rger+%26&color=black",
        "\u{c4}rger &",
        Color::Black,
        [true, true],
    ),
    (
        "player=Ann&color=white&modes=casual,rated,rated",
        "Ann",
        Color::White,
        [true, true],
    ),
    (
        "player=Ann&color=white&modes=rated",
        "Ann",
        Color::White,
        [true, false],
    ),
    (
        "player=Ann&color=white&modes=casual",
        "Ann",
        Color::White,
        [false, true],
    ),
    (
        "player=Ann&color=white&ratings=7&ratings=8&topGames=x&history=1&mode=casual",
        "Ann",
        Color::White,
        [true, true],
    ),
    (
        "player=Ann&color=white&variant=&fen=&play=&speeds=&modes=&since=&until=&moves=&\
         recentGames=",
        "Ann",
        Color::White,
        [true, true],
    ),
    (
        "player=Ann&color=white&variant=standard&moves=12&recentGames=999999",
        "Ann",
        Color::White,
        [true, true],
    ),
];

#[test]
fn takes_player_colour_and_modes(rt: HostRuntime) {
    for (text, player, color, modes) in ASKED {
        let asked = accepted_query(rt.alloc(), text);
        assert!(rt;
            matches!(&asked, Some(asked) if asked.player.as_str() == player
                && asked.color == color
                && asked.modes == modes
                && has_defaults(asked)),
            "{text}"
        );
    }
}

#[test]
fn takes_long_names(rt: HostRuntime) -> Result<(), Fail> {
    let alloc = rt.alloc();
    for (letter, written) in [("a", "a"), ("\u{fffd}", "%ff")] {
        let name = letter.repeat(alloc, 65000)?;
        let text = format!(in alloc; "color=black&player={}", written.repeat(alloc, 65000)?)?;
        let asked = accepted_query(alloc, text.as_str());
        assert!(rt; matches!(&asked, Some(asked) if asked.player.as_str() == name.as_str()));
    }
    Ok(())
}

#[test]
fn reads_the_other_parameters(rt: HostRuntime) {
    let asked = accepted_query(
        rt.alloc(),
        "player=Ann&color=black&play=e2e4,c7c5&speeds=blitz&since=2020-02&until=2021-12&\
         moves=0&recentGames=9",
    );
    assert!(rt;
        matches!(&asked, Some(asked) if asked.query.plays.len() == 2
            && asked.query.root.squares[34].is_none()
            && asked.query.at.squares[34].is_some()
            && asked.query.moves == 0
            && asked.query.recent == 4)
    );
    assert!(rt;
        matches!(&asked, Some(asked) if asked.query.filter.speeds
            == [false, false, true, false, false, false]
            && matches!(asked.query.filter.since, Some(since) if since.month == 2)
            && matches!(asked.query.filter.until, Some(until) if until.month == 12))
    );
}
