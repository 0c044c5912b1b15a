//! What tags say of a game, and the first fault of tags that say none.
use explorer_model::archive::{Bytes, Classes, Mode, Month, Outcome, Speed, Tag, Tags};
use explorer_model::fault::{Stop, TagFault, TagName};
use game_classes::classes;
use std::alloc::{AllocError, Global};
use std::test::Fail;

const WORKED: [(&str, &str); 9] = [
    ("Event", "Rated blitz game"),
    ("Site", "https://lichess.org/aaaaaaa1"),
    ("White", "Ann"),
    ("Black", "Bob"),
    ("Result", "1-0"),
    ("UTCDate", "2020.01.15"),
    ("WhiteElo", "1500"),
    ("BlackElo", "1400"),
    ("TimeControl", "300+0"),
];

fn tag(alloc: Global, name: &str, value: &[u8]) -> Result<Tag, AllocError> {
    let name = Bytes::from_vec(Vec::from_slice(alloc, name.as_bytes())?);
    let value = Bytes::from_vec(Vec::from_slice(alloc, value)?);
    Ok(Tag { name, value })
}

/// The worked tags without one of them, and with a pair more at the end.
fn tags_with(alloc: Global, without: &str, name: &str, value: &[u8]) -> Result<Tags, AllocError> {
    let mut tags = Vec::new(alloc);
    for (name, value) in WORKED {
        if name != without {
            tags.push(tag(alloc, name, value.as_bytes())?)?;
        }
    }
    tags.push(tag(alloc, name, value)?)?;
    Ok(Tags::from_vec(tags))
}

/// What tags say of a game but for its id, its players and its result.
#[derive(Clone, Copy)]
struct Told {
    mode: Mode,
    speed: Speed,
    group: u16,
    month: Month,
}

/// What is told by the worked tags with one of them in another form.
fn told_with(
    alloc: Global,
    without: &str,
    name: &str,
    value: &[u8],
) -> Result<Option<Told>, AllocError> {
    let tags = tags_with(alloc, without, name, value)?;
    Ok(match &classes(alloc, &tags) {
        Ok(game) => Some(Told {
            mode: game.mode,
            speed: game.speed,
            group: game.group.value,
            month: game.month,
        }),
        Err(_) => None,
    })
}

/// The first fault of the worked tags with one of them in another form.
fn fault_with(
    alloc: Global,
    without: &str,
    name: &str,
    value: &[u8],
) -> Result<Option<TagFault>, AllocError> {
    let tags = tags_with(alloc, without, name, value)?;
    Ok(match &classes(alloc, &tags) {
        Err(Stop::Fault(fault)) => Some(*fault),
        _ => None,
    })
}

fn is_worked_game(game: &Classes) -> bool {
    game.id.bytes == *b"aaaaaaa1"
        && game.white.name.as_str() == "Ann"
        && game.white.rating == 1500
        && game.black.name.as_str() == "Bob"
        && game.black.rating == 1400
        && game.outcome == Outcome::White
        && game.mode == Mode::Rated
        && game.speed == Speed::Blitz
        && game.group.value == 1400
        && game.month.year == 2020
        && game.month.month == 1
}

#[test]
fn reads_the_worked_tags(rt: HostRuntime) -> Result<(), Fail> {
    // A second pair of a name is not looked at.
    let tags = tags_with(rt.alloc(), "", "Result", b"0-1")?;
    let game = classes(rt.alloc(), &tags);
    assert!(rt; matches!(&game, Ok(game) if is_worked_game(game)));
    Ok(())
}

#[test]
fn tells_speeds(rt: HostRuntime) -> Result<(), Fail> {
    for (control, speed) in [
        ("15+0", Speed::UltraBullet),
        ("30+0", Speed::Bullet),
        ("60+3", Speed::Blitz),
        ("300+3", Speed::Blitz),
        ("900+14", Speed::Rapid),
        ("900+15", Speed::Classical),
        ("1500", Speed::Classical),
        ("-", Speed::Correspondence),
    ] {
        let told = told_with(rt.alloc(), "TimeControl", "TimeControl", control.as_bytes())?;
        assert!(rt; matches!(told, Some(told) if told.speed == speed));
    }
    Ok(())
}

#[test]
fn tells_groups(rt: HostRuntime) -> Result<(), Fail> {
    // With Black's 1400 the mean is 950, 999, 1000, 2499 and 2500.
    for (rating, group) in [
        ("500", 0),
        ("599", 0),
        ("600", 1000),
        ("3599", 2200),
        ("3600", 2500),
    ] {
        let told = told_with(rt.alloc(), "WhiteElo", "WhiteElo", rating.as_bytes())?;
        assert!(rt; matches!(told, Some(told) if told.group == group));
    }
    Ok(())
}

#[test]
fn tells_modes(rt: HostRuntime) -> Result<(), Fail> {
    for (event, mode) in [
        ("RATED game", Mode::Rated),
        ("rated", Mode::Rated),
        ("ratedgame", Mode::Casual),
        (" rated", Mode::Casual),
        ("rated\tgame", Mode::Casual),
        ("", Mode::Casual),
    ] {
        let told = told_with(rt.alloc(), "Event", "Event", event.as_bytes())?;
        assert!(rt; matches!(told, Some(told) if told.mode == mode));
    }
    Ok(())
}

#[test]
fn tells_the_month_of_the_local_date(rt: HostRuntime) -> Result<(), Fail> {
    let told = told_with(rt.alloc(), "UTCDate", "Date", b"1999.12.??")?;
    assert!(rt; matches!(told, Some(told) if told.month.year == 1999 && told.month.month == 12));
    Ok(())
}

/// Pairs that stand in the place of a tag, or beside all of them, with the fault.
const NOT_READ: [(&str, &str, &[u8], TagFault); 3] = [
    ("", "Variant", b"Chess960", TagFault::NotStandard),
    ("", "SetUp", b"1", TagFault::SetUp),
    ("Result", "Result", b"*", TagFault::UnknownResult),
];

const MISSING: [(&str, TagName); 3] = [
    ("Event", TagName::Event),
    ("Black", TagName::Black),
    ("UTCDate", TagName::UtcDate),
];

/// Tags with values that they can't have.
const MALFORMED: [(&str, &[u8], TagName); 12] = [
    ("Site", b"https://lichess.org/aaaaaaa", TagName::Site),
    ("Site", b"aaaaaaa1", TagName::Site),
    ("White", b"A\xffn", TagName::White),
    ("Result", b"1-1", TagName::Result),
    ("WhiteElo", b"4001", TagName::WhiteElo),
    ("WhiteElo", b"?", TagName::WhiteElo),
    ("BlackElo", b"01500", TagName::BlackElo),
    ("TimeControl", b"1/40", TagName::TimeControl),
    ("TimeControl", b"60+", TagName::TimeControl),
    ("TimeControl", b"1234567", TagName::TimeControl),
    ("UTCDate", b"2020.13.01", TagName::UtcDate),
    ("UTCDate", b"2020.00.01", TagName::UtcDate),
];

#[test]
fn names_what_is_not_read(rt: HostRuntime) -> Result<(), Fail> {
    for (without, name, value, fault) in NOT_READ {
        let found = fault_with(rt.alloc(), without, name, value)?;
        assert_eq!(rt; found, Some(fault));
    }
    Ok(())
}

#[test]
fn names_the_missing_tag(rt: HostRuntime) -> Result<(), Fail> {
    for (without, name) in MISSING {
        let found = fault_with(rt.alloc(), without, "X", b"")?;
        assert_eq!(rt; found, Some(TagFault::Missing { name }));
    }
    Ok(())
}

#[test]
fn names_the_malformed_tag(rt: HostRuntime) -> Result<(), Fail> {
    for (tag, value, name) in MALFORMED {
        let found = fault_with(rt.alloc(), tag, tag, value)?;
        assert_eq!(rt; found, Some(TagFault::Bad { name }));
    }
    let found = fault_with(rt.alloc(), "UTCDate", "Date", b"2020-01-01")?;
    assert_eq!(rt;
        found,
        Some(TagFault::Bad {
            name: TagName::Date
        })
    );
    Ok(())
}
