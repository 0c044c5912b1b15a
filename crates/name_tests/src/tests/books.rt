//! Files of openings, and what they name.
ghost use Rattle.std.specs.Prelude.{◌≡◌, IfOk};
ghost use Rattle.std.specs.List.{AllByRecursion};
ghost use Rattle.explorer_model.specs.Chess.{Legal};

use explorer_model::answer::{Found, MoveLine, Totals};
use explorer_model::archive::Bytes;
use explorer_model::chess::Move;
use explorer_model::fault::Stop;
use explorer_model::list::Items;
use explorer_model::opening::{BookCause, BookFault, Naming, Opening};
use legal_moves::board::Board;
use opening_names::{Book, naming};
use query_params::laws::queries_play_legal_moves;
use query_params::query;
use san_codec::read_on;
use std::alloc::{AllocError, Global};
use std::test::Fail;

const KINGS_PAWN: &str = "B00\tKing's Pawn Game\t1. e4";

const TWO: &str = "B00\tA\t1. e4\r\nC20\tB\t1. e4 e5\r\n";

/// Files, queries, and the name of the position that is asked for, or `-` where it has none.
const NAMES: [(&str, &str, &str); 34] = [
    ("", "play=e2e4", "-"),
    (KINGS_PAWN, "play=e2e4", "King's Pawn Game"),
    (KINGS_PAWN, "", "-"),
    (KINGS_PAWN, "play=e2e4,c7c5", "-"),
    // a line ends with byte 10 or with 13 and 10, and the last one needs no end
    ("B00\tA\t1. e4\nC20\tB\t1. e4 e5\n", "play=e2e4,e7e5", "B"),
    (TWO, "play=e2e4", "A"),
    (TWO, "play=e2e4,e7e5", "B"),
    ("B00\tA\t1. e4\r\nC20\tB\t1. e4 e5", "play=e2e4,e7e5", "B"),
    // empty lines, and a header
    ("\n\r\nB00\tA\te4", "play=e2e4", "A"),
    ("B00\tA\te4\n\n\r\nC20\tB\te4 e5\n\n", "play=e2e4,e7e5", "B"),
    ("eco\tname\tpgn\nB00\tA\te4\n", "play=e2e4", "A"),
    ("eco\tname\tpgn\r\nB00\tA\te4\n", "play=e2e4", "A"),
    // words
    ("B00\tA\t1.e4", "play=e2e4", "A"),
    ("B00\tA\t1... e4", "play=e2e4", "A"),
    ("B00\tA\te4+#", "play=e2e4", "A"),
    ("C20\tA\t   1.   e4   e5  ", "play=e2e4,e7e5", "A"),
    ("C20\tA\t1.e4 1...e5 2.", "play=e2e4,e7e5", "A"),
    ("A00\tThe start\t", "", "The start"),
    ("A00\tThe start\t1. ", "", "The start"),
    // names are any UTF-8 without a tab
    ("B00\tНачало \"x\\y\"\te4", "play=e2e4", "Начало \"x\\y\""),
    ("\t\te4", "play=e2e4", ""),
    // of two lines to one position the first names it, and another order of moves leads there too
    ("B00\tA\te4\nB01\tB\t1. e4", "play=e2e4", "A"),
    (
        "D06\tA\td4 d5 c4\nD07\tB\tc4 d5 d4",
        "play=c2c4,d7d5,d2d4",
        "A",
    ),
    ("D06\tA\t1. d4 d5 2. c4", "play=c2c4,d7d5,d2d4", "A"),
    (
        "C44\tA\t1. e4 e5 2. Nf3 Nc6",
        "play=g1f3,b8c6,e2e4,e7e5",
        "A",
    ),
    // a square behind a pawn counts where the pawn can be taken en passant
    (
        KINGS_PAWN,
        "fen=rnbqkbnr/pppppppp/8/8/4P3/8/PPPP1PPP/RNBQKBNR+b+KQkq+e3+0+1",
        "King's Pawn Game",
    ),
    (
        KINGS_PAWN,
        "fen=rnbqkbnr/pppppppp/8/8/4P3/8/PPPP1PPP/RNBQKBNR+b+KQkq+-+0+1",
        "King's Pawn Game",
    ),
    ("B00\tA\t1. e4 a6 2. e5 d5", "play=e2e4,a7a6,e4e5,d7d5", "A"),
    (
        "B00\tA\t1. e4 a6 2. e5 d5",
        "fen=rnbqkbnr/1pp1pppp/p7/3pP3/8/8/PPPP1PPP/RNBQKBNR+w+KQkq+d6+0+3",
        "A",
    ),
    (
        "B00\tA\t1. e4 a6 2. e5 d5",
        "fen=rnbqkbnr/1pp1pppp/p7/3pP3/8/8/PPPP1PPP/RNBQKBNR+w+KQkq+-+0+3",
        "-",
    ),
    // so do the rights to castle and whose turn it is, and how many moves were made does not
    (
        KINGS_PAWN,
        "fen=rnbqkbnr/pppppppp/8/8/4P3/8/PPPP1PPP/RNBQKBNR+b+KQk+-+0+1",
        "-",
    ),
    (
        KINGS_PAWN,
        "fen=rnbqkbnr/pppppppp/8/8/4P3/8/PPPP1PPP/RNBQKBNR+w+KQkq+-+0+1",
        "-",
    ),
    (
        KINGS_PAWN,
        "fen=rnbqkbnr/pppppppp/8/8/4P3/8/PPPP1PPP/RNBQKBNR+b+KQkq+-+40+99",
        "King's Pawn Game",
    ),
    (
        KINGS_PAWN,
        "fen=rnbqkbnr/pppppppp/8/8/8/4P3/PPPP1PPP/RNBQKBNR+b+KQkq+-+0+1",
        "-",
    ),
];

/// What a file of at most 4,194,304 bytes gives.
fn read(alloc: Global, file: &[u8]) -> Result<Result<Book, BookFault>, Fail> {
    if 4_194_304 < file.len() {
        return Err(Fail::from("a long file"));
    }
    match Book::read(alloc, file) {
        Ok(book) => Ok(Ok(book)),
        Err(Stop::Fault(fault)) => Ok(Err(fault)),
        Err(Stop::OutOfMemory) => Err(Fail::from("no memory")),
    }
}

/// The name of an opening, or `-` where there is none.
fn name_of(opening: Option<&Opening>) -> &str {
    match opening {
        Some(opening) => opening.name.as_str(),
        None => "-",
    }
}

/// The name of the position that a query asks for.
fn name_by(alloc: Global, file: &str, text: &str) -> Result<String, Fail> {
    let book = read(alloc, file.as_bytes())??;
    let query = query(alloc, text.as_bytes())?;
    let opening = book.at(&Board::of_valid(query.at));
    Ok(String::from_str(alloc, name_of(opening))?)
}

#[test]
fn books_name_positions(rt: HostRuntime) -> Result<(), Fail> {
    for (file, text, wanted) in NAMES {
        assert_eq!(rt;
            name_by(rt.alloc(), file, text)?.as_str(),
            wanted,
            "{file}, {text}"
        );
    }
    Ok(())
}

/// Files, their first faulty line and its cause.
const FAULTS: [(&[u8], u32, BookCause); 20] = [
    (b"B00\tA\t1. e5", 1, BookCause::BadMove),
    (b"B00\tA\te4 e4", 1, BookCause::BadMove),
    // a number loses its periods once, and without a period it is none
    (b"B00\tA\t1 e4", 1, BookCause::BadMove),
    (b"B00\tA\t1.1.e4", 1, BookCause::BadMove),
    (b"B00\tA\t.e4", 1, BookCause::BadMove),
    // byte 13 goes before an end alone, and one of them
    (b"B00\tA\t1. e4\r", 1, BookCause::BadMove),
    (b"B00\tA\t1. e4\r\r\n", 1, BookCause::BadMove),
    (b"\r", 1, BookCause::NotThree),
    // empty lines are counted, and a header is one on the first line alone
    (b"\n\r\nB00\tA\te5\n", 3, BookCause::BadMove),
    (b"\neco\tname\tpgn\n", 2, BookCause::BadMove),
    (b"eco\tname\tpgn\neco\tname\tpgn\n", 2, BookCause::BadMove),
    (b"eco name pgn\n", 1, BookCause::NotThree),
    // two tabs stand in a line, whatever stands between them
    (b"B00\tA e4", 1, BookCause::NotThree),
    (b"B00\tA\te4\t", 1, BookCause::NotThree),
    (b"\xff\te4", 1, BookCause::NotThree),
    (b"\xff\tA\te5", 1, BookCause::NotUtf8),
    (b"B00\t\xff\te5", 1, BookCause::NotUtf8),
    (b"B00\t\xd0\te4", 1, BookCause::NotUtf8),
    (b"B00\tA\te4\xff", 1, BookCause::BadMove),
    (b"B00\tA\te4\nB00\te4\nB00\tA\te5\n", 2, BookCause::NotThree),
];

/// The first faulty line of a file.
fn fault_of(alloc: Global, file: &[u8]) -> Result<Option<BookFault>, Fail> {
    Ok(read(alloc, file)?.err())
}

#[test]
fn files_tell_their_first_fault(rt: HostRuntime) -> Result<(), Fail> {
    for (file, line, cause) in FAULTS {
        let wanted = BookFault { line, cause };
        assert_eq!(rt; fault_of(rt.alloc(), file)?, Some(wanted));
    }
    Ok(())
}

/// Words of four knights' moves that lead back.
const KNIGHTS: &str = " Nf3 Nf6 Ng1 Ng8";

/// What a file begins with, a piece that stands there so many times, what it ends with, and the first
/// faulty line. The limits are 64 moves in a line and 4,194,304 bytes.
const LONG: [(&str, &str, usize, &str, Option<BookFault>); 7] = [
    ("A00\tA\t", KNIGHTS, 16, "", None),
    ("A00\tA\t1.", KNIGHTS, 16, " 33. 34.", None),
    ("A00\tA\t", KNIGHTS, 16, " Nf3", Some(TOO_LONG)),
    ("A00\tA\te5", KNIGHTS, 16, "", Some(TOO_LONG)),
    ("A00\tA\te5", KNIGHTS, 15, " Nf3 Nf6 Ng1", Some(BAD_MOVE)),
    ("", "\n", 4_194_278, KINGS_PAWN, None),
    (
        "",
        "\n",
        4_194_278,
        "B00\tKing's Pawn Game\t1. e5",
        Some(LAST_LINE),
    ),
];

const TOO_LONG: BookFault = BookFault {
    line: 1,
    cause: BookCause::TooLong,
};

const BAD_MOVE: BookFault = BookFault {
    line: 1,
    cause: BookCause::BadMove,
};

const LAST_LINE: BookFault = BookFault {
    line: 4_194_279,
    cause: BookCause::BadMove,
};

fn long_file(
    alloc: Global,
    begin: &str,
    piece: &str,
    count: usize,
    end: &str,
) -> Result<Vec<u8>, AllocError> {
    let mut file = Vec::from_slice(alloc, begin.as_bytes())?;
    for _ in 0..count {
        file.extend_from_slice(piece.as_bytes())?;
    }
    file.extend_from_slice(end.as_bytes())?;
    Ok(file)
}

#[test]
fn long_files_and_lines_have_limits(rt: HostRuntime) -> Result<(), Fail> {
    let alloc = rt.alloc();
    for (begin, piece, count, end, wanted) in LONG {
        let file = long_file(alloc, begin, piece, count, end)?;
        assert_eq!(rt;
            fault_of(alloc, file.as_slice())?,
            wanted,
            "{begin}, {count}, {end}"
        );
    }
    Ok(())
}

const BOOK: &str = "B00\tKing's Pawn Game\t1. e4\nA40\tQueen's Pawn Game\t1. d4\n\
     C40\tKing's Knight Opening\t1. e4 e5 2. Nf3\n";

/// Queries, two moves that are found, and the names of the whole and of each move.
const NAMINGS: [(&str, &str, &str, &str); 8] = [
    ("", "e4", "d4", "-; King's Pawn Game; Queen's Pawn Game;"),
    ("", "d4", "c4", "-; Queen's Pawn Game; -;"),
    // the whole has the last name on the way
    ("play=e2e4", "c5", "e5", "King's Pawn Game; -; -;"),
    ("play=e2e4,c7c5", "Nf3", "c3", "King's Pawn Game; -; -;"),
    (
        "play=e2e4,e7e5",
        "f4",
        "Nf3",
        "King's Pawn Game; -; King's Knight Opening;",
    ),
    (
        "play=e2e4,e7e5,g1f3",
        "Nc6",
        "Nf6",
        "King's Knight Opening; -; -;",
    ),
    // which another order of moves may pass by, and the root is on it
    ("play=g1f3,e7e5", "e4", "d4", "-; King's Knight Opening; -;"),
    (
        "fen=rnbqkbnr/pppppppp/8/8/4P3/8/PPPP1PPP/RNBQKBNR+b+KQkq+-+0+1&play=c7c5",
        "Nf3",
        "c3",
        "King's Pawn Game; -; -;",
    ),
];

/// A line of an answer with this move.
fn line(alloc: Global, step: Move) -> MoveLine
    ensures { result.next ≡ step }
{
    MoveLine {
        next: step,
        san: Bytes::from_vec(Vec::new(alloc)),
        average: 0,
        totals: Totals::default(),
        game: None,
    }
}

/// An answer that has these two moves, and no game is counted for it.
fn found_of(alloc: Global, board: &Board, first: Move, second: Move) -> Result<Found, AllocError>
    requires first { Legal board.now first }
    requires second { Legal board.now second }
    ensures { IfOk result (λ found.
        AllByRecursion (λ line. Legal board.now line.next) found.moves) }
{
    let moves = vec![in alloc; line(alloc, first), line(alloc, second)]?;
    Ok(Found {
        totals: Totals::default(),
        moves: Items::from_vec(moves),
        top: Items::from_vec(Vec::new(alloc)),
        recent: Items::from_vec(Vec::new(alloc)),
        history: None,
    })
}

/// What an answer with these two moves names.
fn names(alloc: Global, text: &str, first: &str, second: &str) -> Result<Naming, Fail> {
    // law: the plays of a query are legal, and lead to its position
    queries_play_legal_moves();
    let book = read(alloc, BOOK.as_bytes())??;
    let query = query(alloc, text.as_bytes())?;
    let board = Board::of_valid(query.at);
    let first = read_on(first.as_bytes(), &board)?;
    let second = read_on(second.as_bytes(), &board)?;
    let found = found_of(alloc, &board, first, second)?;
    Ok(naming(alloc, &book, &query, &found)?)
}

/// The names of the whole and of each move, each with a semicolon.
fn names_text(alloc: Global, naming: &Naming) -> Result<String, AllocError> {
    let whole = name_of(naming.whole.as_ref());
    let mut text = format!(in alloc; "{whole};")?;
    for opening in naming.moves.as_slice() {
        let name = name_of(opening.as_ref());
        text.push_str(format!(in alloc; " {name};")?.as_str())?;
    }
    Ok(text)
}

#[test]
fn answers_name_their_whole_and_their_moves(rt: HostRuntime) -> Result<(), Fail> {
    let alloc = rt.alloc();
    for (text, first, second, wanted) in NAMINGS {
        let naming = names(alloc, text, first, second)?;
        assert_eq!(rt; names_text(alloc, &naming)?.as_str(), wanted, "{text}");
    }
    let empty = Book::empty(alloc);
    assert_eq!(rt; name_of(empty.at(&Board::start())), "-");
    Ok(())
}
