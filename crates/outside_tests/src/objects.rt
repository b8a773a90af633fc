//! Each object through its trait.
use outside::{
    Bytes, Files, Gathered, Got, Put, Reader, Shelf, ShelfFault, Shelves, Sink, SinkFault, Source,
    StdErr, StdIn, StdOut, Stream, put_all,
};
use sim_base::Name;
use std::alloc::Global;
use std::io::{self, ErrorKind, Read};
use std::process::Abort;
use std::str::from_utf8;
use std::test::Fail;

fn read<S: Shelf>(
    shelf: &mut S,
    alloc: Global,
    name: &[u8],
    limit: u64,
) -> Result<Vec<u8>, ShelfFault> {
    let name = Name::copy_of(alloc, name).map_err(|_| ShelfFault::NoMemory)?;
    shelf.read(alloc, &name, limit)
}

fn write<S: Shelf>(
    shelf: &mut S,
    alloc: Global,
    name: &[u8],
    bytes: &[u8],
) -> Result<(), ShelfFault> {
    let name = Name::copy_of(alloc, name).map_err(|_| ShelfFault::NoMemory)?;
    shelf.write(alloc, &name, bytes)
}

/// The bytes that were read, or the fault.
fn told_of_read(alloc: Global, read: &Result<Vec<u8>, ShelfFault>) -> Result<String, Fail> {
    match read {
        Ok(bytes) => Ok(format!(in alloc; "{}", from_utf8(bytes)?)?),
        Err(fault) => Ok(format!(in alloc; "{fault:?}")?),
    }
}

/// Each row's file is read up to its limit, or its fault comes.
fn check_reads<S: Shelf>(
    rt: &impl Abort,
    alloc: Global,
    shelf: &mut S,
    rows: &str,
) -> Result<(), Fail> {
    for row in rows.lines() {
        let (asked, want) = row.split_once(" -> ").unwrap_or((row, ""));
        let (name, limit) = asked.split_once(' ').unwrap_or((asked, ""));
        let got = read(shelf, alloc, name.as_bytes(), number(limit));
        assert_eq!(rt; told_of_read(alloc, &got)?.as_str(), want, "{row}");
    }
    Ok(())
}

fn number(word: &str) -> u64 {
    word.parse().unwrap_or(u64::MAX)
}

#[test]
fn a_shelf_in_memory_reads_its_files_and_fails_as_listed(rt: HostRuntime) -> Result<(), Fail> {
    let alloc = rt.alloc();
    let mut shelves = Shelves::new(alloc).failing_reads(vec![in alloc; 3]?);
    shelves.add(Name::copy_of(alloc, b"clock")?, b"tick".to_vec(alloc)?)?;
    let rows = "clock 4 -> tick
clock 3 -> TooLong
clock 4 -> Failed
cloc 4 -> Failed
clock 0 -> TooLong
clock 18446744073709551615 -> tick";
    check_reads(&rt, alloc, &mut shelves, rows)?;
    assert_eq!(rt; shelves.read_faults(), 2);
    assert_eq!(rt; shelves.write_faults(), 0);
    Ok(())
}

#[test]
fn a_shelf_in_memory_keeps_what_is_written(rt: HostRuntime) -> Result<(), Fail> {
    let alloc = rt.alloc();
    let mut shelves = Shelves::new(alloc).failing_writes(vec![in alloc; 2]?);
    let rows = "log one -> Ok(()) one
log two -> Err(Failed) one
log three -> Ok(()) three
trace  -> Ok(()) ";
    for row in rows.lines() {
        let (asked, want) = row.split_once(" -> ").unwrap_or((row, ""));
        let (name, bytes) = asked.split_once(' ').unwrap_or((asked, ""));
        let name = Name::copy_of(alloc, name.as_bytes())?;
        let written = shelves.write(alloc, &name, bytes.as_bytes());
        let left = from_utf8(shelves.bytes_of(&name).ok_or("no file")?)?;
        let told = format!(in alloc; "{written:?} {left}")?;
        assert_eq!(rt; told.as_str(), want, "{row}");
    }
    let missing = Name::copy_of(alloc, b"none")?;
    assert!(rt; shelves.bytes_of(&missing).is_none());
    assert_eq!(rt; shelves.write_faults(), 1);
    Ok(())
}

/// How many bytes a call takes at most, which call fails, a text, and whether it was put and what is held.
const PUTS: &str = "9 0 hello -> true hello
2 0 hello -> true hello
2 3 hello -> false hell
2 1 hello -> false 
1 6 hello -> true hello
1 1  -> true ";

#[test]
fn a_sink_in_memory_holds_what_it_took(rt: HostRuntime) -> Result<(), Fail> {
    let alloc = rt.alloc();
    for row in PUTS.lines() {
        let (asked, want) = row.split_once(" -> ").unwrap_or((row, ""));
        let (most, rest) = asked.split_once(' ').unwrap_or((asked, ""));
        let (failing, text) = rest.split_once(' ').unwrap_or((rest, ""));
        let mut gathered = Gathered::new(alloc)
            .taking(most.parse().unwrap_or(1).max(1))
            .failing(vec![in alloc; number(failing)]?);
        let is_put = put_all(&mut gathered, text.as_bytes()).is_ok();
        let told = format!(in alloc; "{is_put} {}", from_utf8(gathered.bytes())?)?;
        assert_eq!(rt; told.as_str(), want, "{row}");
        assert_eq!(rt; gathered.faults(), u64::from(!is_put));
    }
    let mut gathered = Gathered::with_room(alloc, 5)?;
    assert_eq!(rt; gathered.write(b"hello"), Put::Took(5));
    Ok(())
}

#[test]
fn the_files_of_the_system_are_written_and_read(rt: HostRuntime) -> Result<(), Fail> {
    let alloc = rt.alloc();
    let mut files = Files::new(&rt);
    let failed = Err(ShelfFault::Failed);
    let long = vec![in alloc; b'x'; 20000]?;
    assert_eq!(rt; write(&mut files, alloc, b"short", b"0123456789"), Ok(()));
    assert_eq!(rt; write(&mut files, alloc, b"short", b"ten"), Ok(()));
    assert_eq!(rt; write(&mut files, alloc, b"long", &long), Ok(()));
    assert_eq!(rt; write(&mut files, alloc, b"none/short", b"0"), failed);
    assert_eq!(rt; write(&mut files, alloc, b"\xff", b"0"), failed);
    let rows = "short 3 -> ten
short 2 -> TooLong
long 19999 -> TooLong
none 3 -> Failed";
    check_reads(&rt, alloc, &mut files, rows)?;
    for limit in [20000, u64::MAX] {
        let got = read(&mut files, alloc, b"long", limit)?;
        assert!(rt; got == long, "of at most {limit} bytes");
    }
    let nameless = read(&mut files, alloc, b"\xff", 3);
    assert!(rt; matches!(&nameless, Err(ShelfFault::Failed)));
    Ok(())
}

#[test]
fn a_stream_fails_where_its_writer_takes_nothing(rt: HostRuntime) {
    let mut room = [b'.'; 4];
    let mut stream = Stream::new(&mut room[..3]);
    assert_eq!(rt; stream.write(b"ab"), Put::Took(2));
    assert_eq!(rt; stream.write(b"cd"), Put::Took(1));
    assert_eq!(rt; stream.write(b"d"), Put::Failed);
    assert_eq!(rt; room, *b"abc.");
}

#[test]
fn the_standard_streams_take_bytes(rt: HostRuntime) {
    assert_eq!(rt; put_all(&mut StdOut::new(rt.stdout()), b"out\n"), Ok(()));
    assert_eq!(rt; put_all(&mut StdErr::new(rt.stderr()), b"err\n"), Ok(()));
}

/// The answer of a read of a source, and the bytes that it gave.
fn told_of_piece<S: Source>(alloc: Global, source: &mut S) -> Result<String, Fail> {
    let mut buffer = [b'.'; 3];
    match source.read(&mut buffer) {
        Got::Bytes(count) => Ok(format!(in alloc; "{}", from_utf8(&buffer[..count])?)?),
        got => Ok(format!(in alloc; "{got:?}")?),
    }
}

/// Each piece of a source is read, in this order.
fn check_pieces<S: Source>(
    rt: &impl Abort,
    alloc: Global,
    source: &mut S,
    pieces: &str,
) -> Result<(), Fail> {
    for piece in pieces.split(", ") {
        assert_eq!(rt;
            told_of_piece(alloc, source)?.as_str(),
            piece,
            "of {pieces}"
        );
    }
    Ok(())
}

/// How many bytes a call gives at most, what comes, and what is left.
const PIECES: &str = "9 -> hel, lo world
9 -> Failed, lo world
1 -> l, o world
2 -> o , world
2 -> Failed, world
9 -> wor, ld
9 -> ld, 
9 -> End, ";

#[test]
fn a_source_in_memory_gives_its_bytes_once(rt: HostRuntime) -> Result<(), Fail> {
    let alloc = rt.alloc();
    let mut bytes = Bytes::new(alloc, b"hello world".to_vec(alloc)?).failing(vec![in alloc; 2, 5]?);
    for row in PIECES.lines() {
        let (most, want) = row.split_once(" -> ").unwrap_or((row, ""));
        bytes = bytes.giving(most.parse().unwrap_or(1).max(1));
        let got = told_of_piece(alloc, &mut bytes)?;
        let told = format!(in alloc; "{}, {}", got.as_str(), from_utf8(bytes.left())?)?;
        assert_eq!(rt; told.as_str(), want, "{row}");
    }
    assert_eq!(rt; bytes.faults(), 2);
    check_pieces(&rt, alloc, &mut bytes, "End")?;
    check_pieces(&rt, alloc, &mut Bytes::new(alloc, Vec::new(alloc)), "End")
}

/// A reader that is interrupted, fails, gives one byte, gives nothing, and then gives bytes again.
#[derive(Drop)]
struct Faulty {
    calls: u64,
}

impl Read for Faulty {
    fn read(&mut self, buf: &mut [u8]) -> io::Result<usize> {
        self.calls = self.calls.saturating_add(1);
        match self.calls {
            1 | 3 => Err(ErrorKind::Interrupted.into()),
            2 => Err(ErrorKind::ConnectionReset.into()),
            5 => Ok(0),
            _ => {
                if buf.is_empty() {
                    return Ok(0);
                }
                buf[0] = b'x';
                Ok(1)
            }
        }
    }
}

#[test]
fn a_reader_is_a_source_of_its_bytes_up_to_its_end(rt: HostRuntime) -> Result<(), Fail> {
    let alloc = rt.alloc();
    let mut reader = Reader::new(b"stdin".as_slice());
    check_pieces(&rt, alloc, &mut reader, "std, in, End, End")?;
    let mut faulty = Reader::new(Faulty { calls: 0 });
    check_pieces(&rt, alloc, &mut faulty, "Failed, x, End, End")?;
    check_pieces(&rt, alloc, &mut StdIn::new(rt.stdin()), "End")
}

#[test]
fn faults_have_texts(rt: HostRuntime) -> Result<(), Fail> {
    let (failed, long, memory) = (
        ShelfFault::Failed,
        ShelfFault::TooLong,
        ShelfFault::NoMemory,
    );
    let text = format!(in rt.alloc(); "{failed}; {long}; {memory}; {SinkFault}")?;
    let want =
        "a file could not be read or written; a file is too long; out of memory; a sink failed";
    assert_eq!(rt; text.as_str(), want);
    Ok(())
}
