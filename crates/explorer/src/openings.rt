//! The file of openings by which answers are named.
ghost use Rattle.std.specs.Prelude.{◌≡◌, ◌+◌, ◌<◌, ◌≤◌, Some, length, option_map, string_bytes};
ghost use Rattle.explorer.specs.Book.{GivesBook, ReadsAs, ReadsBytes, openings_limit};

use crate::fault::Fault;
use explorer_model::fault::Stop;
use host::Host;
use host::laws::what_is_handed_out_is_out;
use opening_names::Book;
use outside::Source;
use std::alloc::Global;

/// The most bytes of a file of openings.
const LIMIT: usize = 4_194_304;

/// How many bytes one read asks for.
const BUFFER: usize = 4096;

/// The book of the file of this name, or one without a line where no name is given. The file is read
/// to its end, or to the first byte that is one too many, and given back.
pub fn book_of<H: Host>(
    alloc: Global,
    openings: Option<String>,
    host: &mut H,
) -> Result<Book, Fault>
    ensures { GivesBook (option_map string_bytes openings) result
        (H.host host.old) (H.host host.new) }
{
    match openings {
        Some(name) => book_under(alloc, name, host),
        None => Ok(Book::empty(alloc)),
    }
}

/// The book of the file of this name.
fn book_under<H: Host>(alloc: Global, name: String, host: &mut H) -> Result<Book, Fault>
    ensures { GivesBook (Some (string_bytes name)) result (H.host host.old) (H.host host.new) }
{
    // law: a file that was handed out is to be given back
    what_is_handed_out_is_out();
    let Ok(mut file) = host.file(name.as_str()) else {
        return Err(Fault::CannotOpen { name });
    };
    let bytes = read_bytes(alloc, &mut file);
    host.close_file(name.as_str(), file);
    match bytes {
        Ok(bytes) => book_in(alloc, bytes.as_slice()),
        Err(fault) => Err(fault),
    }
}

/// The bytes of a file of openings, where there are no more of them than a book may have.
fn read_bytes<S: Source>(alloc: Global, source: &mut S) -> Result<Vec<u8>, Fault>
    ensures { ReadsBytes result (S.source source.old) (S.source source.new) }
{
    let mut buffer = [0; BUFFER];
    let mut bytes = Vec::new(alloc);
    'reading: loop {
        let chunk = &mut buffer[..room_behind(bytes.len())];
        let Ok(count) = source.read(chunk) else {
            return Err(Fault::ReadFault);
        };
        if count == 0 {
            return Ok(bytes);
        }
        let Ok(()) = bytes.extend_from_slice(&chunk[..count]) else {
            return Err(Fault::OutOfMemory);
        };
        if bytes.len() > LIMIT {
            return Err(Fault::OpeningsTooLong);
        }
    }
}

/// How many bytes are read next: no more than one too many.
fn room_behind(read: usize) -> usize
    requires { read ≤ openings_limit }
    ensures some { 0 < result }
    ensures few { result ≤ 4096 }
    ensures within { read + result ≤ openings_limit + 1 }
{
    (LIMIT + 1 - read).min(BUFFER)
}

/// The book that the bytes of a file are, or its first faulty line.
fn book_in(alloc: Global, bytes: &[u8]) -> Result<Book, Fault>
    requires { length bytes.now ≤ openings_limit }
    ensures { ReadsAs bytes.now result }
{
    match Book::read(alloc, bytes) {
        Ok(book) => Ok(book),
        Err(Stop::Fault(fault)) => Err(Fault::BadOpenings {
            line: fault.line,
            cause: fault.cause,
        }),
        Err(Stop::OutOfMemory) => Err(Fault::OutOfMemory),
    }
}
