//! Answers to queries over a few games.
use super::{
    FAULTLESS, NO_GAME, ONE_WHITE, Tags, five_games, five_texts, game, game_with_tags, one_move,
    run_on, two_moves,
};
use std::alloc::AllocError;
use std::sync::Wait;
use std::test::Fail;
use std::thread::Threads;

/// Whether a count of the text answers the query so, with nothing to report.
fn answers<R: AllocGlobal + Wait + Threads + Sync>(
    rt: &R,
    text: &str,
    query: &str,
    answer: &str,
) -> Result<bool, AllocError> {
    let seen = run_on(rt, &["count", query], text, 4096, FAULTLESS)?;
    Ok(seen.is(0, answer, ""))
}

/// Whether a count of a game that White won answers the query with this one move.
fn answers_with_one<R: AllocGlobal + Wait + Threads + Sync>(
    rt: &R,
    movetext: &str,
    query: &str,
    (history, rating): (&str, &str),
    (san, uci): (&str, &str),
) -> Result<bool, AllocError> {
    let text = game(rt.alloc(), "1-0", movetext)?;
    let answer = one_move(rt.alloc(), history, rating, san, uci)?;
    answers(rt, text.as_str(), query, answer.as_str())
}

#[test]
fn answers_with_the_move_that_was_played(rt: HostRuntime) -> Result<(), Fail> {
    let commented = "1. e4 { [%eval 0.17] [%clk 0:00:30] } 1... c5?! { [%clk 0:00:29] } 1-0";
    let pinned = "1. d4 Nf6 2. c4 e6 3. Nc3 Bb4 4. e3 b6 5. Nge2 1-0";
    let returning = "1. Nf3 Nf6 2. Ng1 Ng8 3. e4 1-0";
    let en_passant = "1. e4 e6 2. e5 d5 3. exd6 1-0";
    let castling = "1. e2e4 e5 2. Ng1f3 Nc6+ 3. Bc4 Bc5# 4. 0-0 Nf6 1-0";
    let month = "\"history\":[{\"black\":0,\"draws\":0,\"month\":\"2020-01\",\"white\":1}],";
    for (movetext, query, told, played) in [
        (commented, "", ("", "1500"), ("e4", "e2e4")),
        (commented, "history=true", (month, "1500"), ("e4", "e2e4")),
        (
            commented,
            "since=2020-01&until=2020-01&history=true",
            (month, "1500"),
            ("e4", "e2e4"),
        ),
        (
            commented,
            "since=2020-01&until=2020-01&history=false",
            ("", "1500"),
            ("e4", "e2e4"),
        ),
        (commented, "play=e2e4", ("", "1400"), ("c5", "c7c5")),
        (
            commented,
            "fen=rnbqkbnr/pppppppp/8/8/4P3/8/PPPP1PPP/RNBQKBNR+b+KQkq+e3+0+1",
            ("", "1400"),
            ("c5", "c7c5"),
        ),
        (
            commented,
            "fen=rnbqkbnr/pppppppp/8/8/4P3/8/PPPP1PPP/RNBQKBNR+b+KQkq+-+0+1",
            ("", "1400"),
            ("c5", "c7c5"),
        ),
        (
            pinned,
            "play=d2d4,g8f6,c2c4,e7e6,b1c3,f8b4,e2e3,b7b6",
            ("", "1500"),
            ("Ne2", "g1e2"),
        ),
        (returning, "", ("", "1500"), ("Nf3", "g1f3")),
        (
            en_passant,
            "play=e2e4,e7e6,e4e5,d7d5",
            ("", "1500"),
            ("exd6", "e5d6"),
        ),
        (
            en_passant,
            "fen=rnbqkbnr/ppp2ppp/4p3/3pP3/8/8/PPPP1PPP/RNBQKBNR+w+KQkq+d6+0+3",
            ("", "1500"),
            ("exd6", "e5d6"),
        ),
        (
            castling,
            "play=e2e4,e7e5,g1f3,b8c6,f1c4,f8c5",
            ("", "1500"),
            ("O-O", "e1g1"),
        ),
        (
            castling,
            "play=e2e4,e7e5,g1f3,b8c6,f1c4,f8c5,e1h1",
            ("", "1400"),
            ("Nf6", "g8f6"),
        ),
        (
            castling,
            "play=e2e4,e7e5,g1f3,b8c6,f1c4,f8c5,e1g1",
            ("", "1400"),
            ("Nf6", "g8f6"),
        ),
    ] {
        let told = answers_with_one(&rt, movetext, query, told, played)?;
        assert!(rt; told, "{movetext} {query}");
    }
    Ok(())
}

/// Whether a count of a game with these tags, which White won, answers the query so.
fn answers_over_one<R: AllocGlobal + Wait + Threads + Sync>(
    rt: &R,
    tags: &Tags,
    query: &str,
    answer: &str,
) -> Result<bool, AllocError> {
    let text = game_with_tags(rt.alloc(), tags, "1-0")?;
    answers(rt, text.as_str(), query, answer)
}

#[test]
fn answers_over_the_games_that_are_asked_for(rt: HostRuntime) -> Result<(), Fail> {
    let ratings = ("1500", "1400");
    for ((white_rating, black_rating), time, query, answer) in [
        (ratings, "15+0", "speeds=ultraBullet", ONE_WHITE),
        (
            ratings,
            "15+0",
            "speeds=bullet,blitz,rapid,classical,correspondence",
            NO_GAME,
        ),
        (ratings, "60+3", "speeds=blitz", ONE_WHITE),
        (
            ratings,
            "60+3",
            "speeds=ultraBullet,bullet,rapid,classical,correspondence",
            NO_GAME,
        ),
        (ratings, "900+15", "speeds=classical", ONE_WHITE),
        (
            ratings,
            "900+15",
            "speeds=ultraBullet,bullet,blitz,rapid,correspondence",
            NO_GAME,
        ),
        (ratings, "-", "speeds=correspondence", ONE_WHITE),
        (
            ratings,
            "-",
            "speeds=ultraBullet,bullet,blitz,rapid,classical",
            NO_GAME,
        ),
        (("2499", "2500"), "300+0", "ratings=2200", ONE_WHITE),
        (
            ("2499", "2500"),
            "300+0",
            "ratings=0,1000,1200,1400,1600,1800,2000,2500",
            NO_GAME,
        ),
        (("999", "1000"), "300+0", "ratings=0", ONE_WHITE),
        (
            ("999", "1000"),
            "300+0",
            "ratings=1000,1200,1400,1600,1800,2000,2200,2500",
            NO_GAME,
        ),
        (ratings, "300+0", "since=2020-02&until=2020-01", NO_GAME),
        (ratings, "300+0", "since=2020-02", NO_GAME),
        (ratings, "300+0", "until=2019-12", NO_GAME),
        (
            ratings,
            "300+0",
            "fen=1r2k3/8/8/8/8/8/8/R3K3+w+Q+-+0+1&play=e1c1",
            NO_GAME,
        ),
    ] {
        let tags = Tags {
            id: "aaaaaaa1",
            outcome: "1-0",
            white_rating,
            black_rating,
            time,
        };
        let told = answers_over_one(&rt, &tags, query, answer)?;
        assert!(rt; told, "{time} {query}");
    }
    let text = game(rt.alloc(), "1-0", "1. e4 e6 2. e5 d5 3. exd6 1-0")?;
    let too_late = "fen=rnbqkbnr/ppp2ppp/4p3/3pP3/8/8/PPPP1PPP/RNBQKBNR+w+KQkq+-+0+3";
    assert!(rt; answers(&rt, text.as_str(), too_late, NO_GAME)?);
    Ok(())
}

/// Whether moves of equal totals are told by their texts.
fn equal_moves_are_in_order<R: AllocGlobal + Wait + Threads + Sync>(
    rt: &R,
) -> Result<bool, AllocError> {
    let (text, answer) = two_moves(rt.alloc())?;
    answers(rt, text.as_str(), "", answer.as_str())
}

/// Whether a count of five equal games answers the query so.
fn answers_over_five<R: AllocGlobal + Wait + Threads + Sync>(
    rt: &R,
    query: &str,
    top: &[u32],
    recent: &[u32],
) -> Result<bool, AllocError> {
    let text = five_texts(rt.alloc())?;
    let answer = five_games(rt.alloc(), top, recent)?;
    answers(rt, text.as_str(), query, answer.as_str())
}

#[test]
fn lists_moves_and_games_in_their_order(rt: HostRuntime) -> Result<(), Fail> {
    assert!(rt; equal_moves_are_in_order(&rt)?);
    let table: [(&str, &[u32], &[u32]); 4] = [
        ("", &[0, 1, 2, 3], &[4, 3, 2, 1]),
        ("colour=red&topGames=9", &[0, 1, 2, 3], &[4, 3, 2, 1]),
        ("topGames=1&recentGames=2", &[0], &[4, 3]),
        ("topGames=0", &[], &[4, 3, 2, 1]),
    ];
    for (query, top, recent) in table {
        assert!(rt; answers_over_five(&rt, query, top, recent)?, "{query}");
    }
    Ok(())
}
