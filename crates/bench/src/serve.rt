// Commands in, answers out, until the input or the session ends.
use session::command::{Command, command_of};
use session::reply::{Outcome, put_no_command, put_unread};
use session::session::Session;
use session::words::trimmed;
use std::alloc::Global;
use std::io::{BufRead, ErrorKind, Read, Write};
use std::{fs, io};

// One byte more than a listing may have, so that a longer one is refused and not read to its end.
const MOST_READ: u64 = 4097;

// The next line without its line end, none at the end of the input.
fn next_line<R: BufRead>(alloc: Global, input: &mut R) -> io::Result<Option<Vec<u8>>> {
    let mut line = Vec::new(alloc);
    if input.read_until(b'\n', &mut line)? == 0 {
        return Ok(None);
    }
    if line.last() == Some(&b'\n') {
        line.pop();
    }
    Ok(Some(line))
}

// The lines up to a line `end`, each with a line end.
fn listing<R: BufRead>(alloc: Global, input: &mut R) -> io::Result<Vec<u8>> {
    let mut text = Vec::new(alloc);
    for _ in 0..u64::MAX {
        match next_line(alloc, input)? {
            Some(line) if trimmed(&line) != b"end".as_slice() => {
                text.write_all(&line)?;
                text.write_all(b"\n")?;
            }
            _ => break,
        }
    }
    Ok(text)
}

// The bytes of a file, or as many as show that it is too long.
fn file_bytes(rt: &HostRuntime, path: &[u8]) -> io::Result<Vec<u8>> {
    let Ok(path) = str::from_utf8(path) else {
        return Err(io::Error::new(ErrorKind::InvalidInput, "the path is no text"));
    };
    let mut text = Vec::new(rt.alloc());
    fs::open(rt, path)?.take(MOST_READ).read_to_end(&mut text)?;
    Ok(text)
}

// Answers a line; none where the session ends with it.
fn answer<R: BufRead>(
    rt: &HostRuntime,
    session: &mut Session,
    line: &[u8],
    input: &mut R,
    out: &mut Vec<u8>,
) -> io::Result<Option<Outcome>> {
    let alloc = rt.alloc();
    let outcome = match command_of(alloc, line)? {
        None => put_no_command(line, out)?,
        Some(Command::Quit) => return Ok(None),
        Some(Command::Listing) => {
            let text = listing(alloc, input)?;
            session.read(&text, out)?
        }
        Some(Command::Read(path)) => match file_bytes(rt, path) {
            Ok(text) => session.read(&text, out)?,
            Err(error) if error.kind() == ErrorKind::OutOfMemory => return Err(error),
            Err(error) => put_unread(path, error, out)?,
        },
        Some(command) => session.obey(alloc, command, out)?,
    };
    Ok(Some(outcome))
}

// Answers each line, and says how all of them ended.
pub fn serve<R: BufRead>(rt: &HostRuntime, input: &mut R) -> io::Result<Outcome> {
    let alloc = rt.alloc();
    let mut session = Session::new(alloc)?;
    let mut ended = Outcome::Granted;
    for _ in 0..u64::MAX {
        let Some(line) = next_line(alloc, input)? else {
            break;
        };
        let mut out = Vec::new(alloc);
        let Some(outcome) = answer(rt, &mut session, &line, input, &mut out)? else {
            break;
        };
        ended = ended.and(outcome);
        rt.stdout().write_all(&out)?;
        rt.stdout().flush()?;
    }
    Ok(ended)
}
