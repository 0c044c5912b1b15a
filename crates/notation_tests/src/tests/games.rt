//! Games by their texts, and the first fault of texts that hold none.
use explorer_model::archive::Game;
use explorer_model::fault::{GameFault, Stop, TagFault, TagName};
use game_replay::replay;
use std::alloc::{AllocError, Global};
use std::test::Fail;

/// The worked game with this result in its tag and this movetext, which begins at byte 190 where
/// the result has three bytes.
fn game(alloc: Global, tag: &str, movetext: &str) -> Result<String, AllocError> {
    format!(in alloc;
        "[Event \"Rated blitz game\"]\n[Site \"https://lichess.org/aaaaaaa1\"]\n\
         [White \"Ann\"]\n[Black \"Bob\"]\n[Result \"{tag}\"]\n[UTCDate \"2020.01.15\"]\n\
         [WhiteElo \"1500\"]\n[BlackElo \"1400\"]\n[TimeControl \"300+0\"]\n\n{movetext}\n"
    )
}

/// The game of a text, where the text is short enough to be read.
pub fn replay_text(alloc: Global, text: &str) -> Option<Result<Game, Stop<GameFault>>> {
    if 65_536 < text.len() {
        return None;
    }
    Some(replay(alloc, text.as_bytes()))
}

/// How many plies the worked game has with this movetext, where it has a game.
fn plies_of(alloc: Global, movetext: &str) -> Result<Option<usize>, AllocError> {
    let text = game(alloc, "1-0", movetext)?;
    Ok(match &replay_text(alloc, text.as_str()) {
        Some(Ok(game)) => Some(game.moves.len()),
        _ => None,
    })
}

/// The first fault of the worked game with this result in its tag and this movetext.
fn fault_of(alloc: Global, tag: &str, movetext: &str) -> Result<Option<GameFault>, AllocError> {
    let text = game(alloc, tag, movetext)?;
    Ok(match &replay_text(alloc, text.as_str()) {
        Some(Err(Stop::Fault(fault))) => Some(*fault),
        _ => None,
    })
}

#[test]
fn replays_games(rt: HostRuntime) -> Result<(), Fail> {
    for (movetext, plies) in [
        ("1. e2e4 e5 2. Ng1f3 Nc6+ 3. Bc4 Bc5# 4. 0-0 1-0", 7),
        ("1. d4 Nf6 2. c4 e6 3. Nc3 Bb4 4. e3 b6 5. Nge2 1-0", 9),
        ("1. d4 Nf6 2. c4 e6 3. Nc3 Bb4 4. e3 b6 5. Ne2 1-0", 9),
        (
            "1. e4 { [%eval 0.17] } 1... c5?! (1... e5 2. Ke3) $14 1-0",
            2,
        ),
        ("1-0", 0),
    ] {
        assert_eq!(rt; plies_of(rt.alloc(), movetext)?, Some(plies));
    }
    Ok(())
}

/// Results, movetexts and their first faults.
const FAULTS: [(&str, &str, GameFault); 10] = [
    (
        "1-0",
        "1. e4 e5 2. Ke3 1-0",
        GameFault::Illegal { ply: 3, place: 202 },
    ),
    (
        "1-0",
        "1. e4 Zz 1-0",
        GameFault::NotSan { ply: 2, place: 196 },
    ),
    ("1-0", "1. e4 {x 1-0", GameFault::Lex { place: 196 }),
    (
        "1-0",
        "1. d4 d5 2. Nf3 Nf6 3. Nd2 1-0",
        GameFault::Ambiguous { ply: 5, place: 213 },
    ),
    ("1-0", "1. e4", GameFault::NoTermination),
    ("1-0", "1. e4 0-1", GameFault::ResultDiffers),
    ("1-0", "1. Zz 0-1", GameFault::ResultDiffers),
    ("*", "1. e4", GameFault::Tag(TagFault::UnknownResult)),
    (
        "1:0",
        "1. e4",
        GameFault::Tag(TagFault::Bad {
            name: TagName::Result,
        }),
    ),
    ("*", "1. e4 {", GameFault::Lex { place: 194 }),
];

#[test]
fn names_the_first_fault(rt: HostRuntime) -> Result<(), Fail> {
    for (tag, movetext, fault) in FAULTS {
        assert_eq!(rt; fault_of(rt.alloc(), tag, movetext)?, Some(fault));
    }
    Ok(())
}

/// 1,024 plies, and more behind them.
fn long_movetext(alloc: Global, more: &str) -> Result<String, AllocError> {
    let mut movetext = String::new(alloc);
    for _ in 0..256 {
        movetext.push_str("Nf3 Nf6 Ng1 Ng8 ")?;
    }
    movetext.push_str(more)?;
    Ok(movetext)
}

/// A move, so many variations, each within the one before, and a result.
fn nested_movetext(alloc: Global, pairs: u32) -> Result<String, AllocError> {
    let mut movetext = String::from_str(alloc, "1. e4 ")?;
    for _ in 0..pairs {
        movetext.push_str("(")?;
    }
    for _ in 0..pairs {
        movetext.push_str(")")?;
    }
    movetext.push_str(" 1-0")?;
    Ok(movetext)
}

#[test]
fn takes_as_many_as_1024_plies(rt: HostRuntime) -> Result<(), Fail> {
    for (more, plies, fault) in [
        ("1-0", Some(1024), None),
        ("Nf3 1-0", None, Some(GameFault::TooManyPlies)),
    ] {
        let movetext = long_movetext(rt.alloc(), more)?;
        let movetext = movetext.as_str();
        assert_eq!(rt; plies_of(rt.alloc(), movetext)?, plies);
        assert_eq!(rt; fault_of(rt.alloc(), "1-0", movetext)?, fault);
    }
    let movetext = nested_movetext(rt.alloc(), 30_000)?;
    assert_eq!(rt; plies_of(rt.alloc(), movetext.as_str())?, Some(1));
    Ok(())
}

/// What is wrong with a text that is cut.
#[derive(Clone, Copy)]
enum Loss {
    Tag(TagName),
    /// The end of the pair that begins at this byte.
    PairAt(u32),
    Termination,
}

/// Up to which byte each loss is the first of the worked game where it is cut there. Its result ends
/// at byte 199, and it has 200 bytes.
const LOSSES: [(usize, Loss); 19] = [
    (1, Loss::Tag(TagName::Event)),
    (26, Loss::PairAt(0)),
    (28, Loss::Tag(TagName::Site)),
    (64, Loss::PairAt(27)),
    (66, Loss::Tag(TagName::White)),
    (78, Loss::PairAt(65)),
    (80, Loss::Tag(TagName::Black)),
    (92, Loss::PairAt(79)),
    (94, Loss::Tag(TagName::Result)),
    (107, Loss::PairAt(93)),
    (109, Loss::Tag(TagName::WhiteElo)),
    (130, Loss::PairAt(108)),
    (132, Loss::Tag(TagName::WhiteElo)),
    (148, Loss::PairAt(131)),
    (150, Loss::Tag(TagName::BlackElo)),
    (166, Loss::PairAt(149)),
    (168, Loss::Tag(TagName::TimeControl)),
    (188, Loss::PairAt(167)),
    (199, Loss::Termination),
];

/// What the worked game is refused for where it is cut at this byte.
fn fault_at(end: usize) -> Option<GameFault> {
    for (until, loss) in LOSSES {
        if end < until {
            return Some(match loss {
                Loss::Tag(name) => GameFault::Tag(TagFault::Missing { name }),
                Loss::PairAt(place) => GameFault::Lex { place },
                Loss::Termination => GameFault::NoTermination,
            });
        }
    }
    None
}

/// What the front of a text up to this byte is refused for.
fn cut_fault(alloc: Global, text: &str, end: usize) -> Result<Option<GameFault>, Fail> {
    let front = text.get(..end).ok_or("a shorter text")?;
    match replay_text(alloc, front) {
        Some(Ok(_)) => Ok(None),
        Some(Err(Stop::Fault(fault))) => Ok(Some(fault)),
        _ => Err(Fail::from("not read")),
    }
}

#[test]
fn game_is_cut_at_each_byte(rt: HostRuntime) -> Result<(), Fail> {
    let text = game(rt.alloc(), "1-0", "1. e4 1-0")?;
    for end in 0..text.len() + 1 {
        let fault = cut_fault(rt.alloc(), text.as_str(), end)?;
        assert_eq!(rt; fault, fault_at(end), "at {end}");
    }
    Ok(())
}
