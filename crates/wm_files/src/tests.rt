// Runs of the files and sinks: what they hold, which calls fail, and one run of each real one.
use crate::real::{read_whole, write_whole};
use crate::{Files, MemoryFiles, MemorySink, ReadFault, RealFiles, RealOut, Sink, WriteFault};
use std::alloc::Global;
use std::io::{Error, ErrorKind, Read, Write};
use std::test::Fail;
use std::{env, fs, io};

/// Reads through the bound, and gives the bytes or the fault's name.
fn read_or_fault<F: Files>(
    files: &mut F,
    alloc: Global,
    name: &[u8],
    limit: u64,
) -> Result<Vec<u8>, Fail> {
    let fault = match files.read(alloc, name, limit) {
        Ok(bytes) => return Ok(bytes),
        Err(ReadFault::NotHeld) => "NotHeld",
        Err(ReadFault::Failed) => "Failed",
        Err(ReadFault::TooLong) => "TooLong",
        Err(ReadFault::NoMemory) => "NoMemory",
    };
    Ok(fault.as_bytes().to_vec(alloc)?)
}

#[test]
fn reads_in_memory(rt: HostRuntime) -> Result<(), Fail> {
    let alloc = rt.alloc();
    let mut files = MemoryFiles::new(alloc, [3, 5].to_vec(alloc)?);
    assert_eq!(rt; files.hold(b"s.toml", b"old"), Ok(()));
    assert_eq!(rt; files.hold(b"s.toml", b"four"), Ok(()));
    assert_eq!(rt; files.hold(b"", b""), Ok(()));
    let calls = [
        (b"s.toml".as_slice(), 4, b"four".as_slice()),
        (b"s.toml", 3, b"TooLong"),
        (b"s.toml", 4, b"Failed"),
        (b"a.c", 4, b"NotHeld"),
        (b"a.c", 4, b"Failed"),
        (b"", 0, b""),
        (b"s.tom", 9, b"NotHeld"),
    ];
    for (name, limit, want) in calls {
        let got = read_or_fault(&mut files, alloc, name, limit)?;
        assert_eq!(rt; got.as_slice(), want);
    }
    Ok(())
}

#[test]
fn writes_in_memory(rt: HostRuntime) -> Result<(), Fail> {
    let alloc = rt.alloc();
    let mut files = MemoryFiles::new(alloc, [2].to_vec(alloc)?);
    assert_eq!(rt; files.write(b"b", b"first"), Ok(()));
    assert_eq!(rt; files.write(b"b", b"lost"), Err(WriteFault::Failed));
    assert_eq!(rt; files.write(b"a", b"other"), Ok(()));
    for (name, want) in [(b"b".as_slice(), b"first".as_slice()), (b"a", b"other")] {
        let got = read_or_fault(&mut files, alloc, name, 9)?;
        assert_eq!(rt; got.as_slice(), want);
    }
    Ok(())
}

#[test]
fn puts_in_memory(rt: HostRuntime) -> Result<(), Fail> {
    let mut sink = MemorySink::new(rt.alloc(), [2, 2].to_vec(rt.alloc())?);
    assert_eq!(rt; sink.put(b"one "), Ok(()));
    assert_eq!(rt; sink.put(b"two "), Err(WriteFault::Failed));
    assert_eq!(rt; sink.put(b"three"), Ok(()));
    assert_eq!(rt; sink.written(), b"one three".as_slice());
    Ok(())
}

#[test]
fn reads_and_writes_the_system(rt: HostRuntime) -> Result<(), Fail> {
    let alloc = rt.alloc();
    let folder = env::temp_dir(&rt)?;
    let path = format!(in alloc; "{}/wm_files_reads_and_writes", folder.as_path().as_str())?;
    let name = path.as_str().as_bytes();
    let mut files = RealFiles::new(&rt);
    assert_eq!(rt; files.write(name, b"longer"), Ok(()));
    assert_eq!(rt; files.write(name, b"four"), Ok(()));
    for (limit, want) in [(4, b"four".as_slice()), (3, b"TooLong")] {
        let got = read_or_fault(&mut files, alloc, name, limit)?;
        assert_eq!(rt; got.as_slice(), want);
    }
    fs::remove_file(&rt, path.as_str())?;
    for missing in [name, b"\xff"] {
        let got = read_or_fault(&mut files, alloc, missing, 4)?;
        assert_eq!(rt; got.as_slice(), b"Failed".as_slice());
    }
    assert_eq!(rt; files.write(b"\xff", b""), Err(WriteFault::Failed));
    Ok(())
}

#[test]
fn puts_to_the_standard_output(rt: HostRuntime) {
    let mut out = RealOut::new(&rt);
    assert_eq!(rt; out.put(b"put\n"), Ok(()));
    assert_eq!(rt; out.put(b""), Ok(()));
}

/// Moves a byte at a time, and fails once it has moved `left` of them.
#[derive(Drop)]
struct Failing {
    left: usize,
}

impl Read for Failing {
    fn read(&mut self, buf: &mut [u8]) -> io::Result<usize> {
        if self.left == 0 {
            return Err(Error::from(ErrorKind::Other));
        }
        if buf.is_empty() {
            return Ok(0);
        }
        self.left -= 1;
        buf[0] = 7;
        Ok(1)
    }
}

impl Write for Failing {
    fn write(&mut self, buf: &[u8]) -> io::Result<usize> {
        if self.left == 0 {
            return Ok(0);
        }
        self.left -= 1;
        Ok(buf.len().min(1))
    }

    fn flush(&mut self) -> io::Result<()> {
        Ok(())
    }
}

#[test]
fn fails_in_mid_stream(rt: HostRuntime) {
    let read = read_whole(&mut Failing { left: 3 }, rt.alloc(), 3);
    assert!(rt; matches!(read, Err(ReadFault::Failed)));
    let read = read_whole(&mut Failing { left: 3 }, rt.alloc(), 2);
    assert!(rt; matches!(read, Err(ReadFault::TooLong)));
    assert_eq!(rt;
        write_whole(&mut Failing { left: 3 }, b"four"),
        Err(WriteFault::Failed)
    );
    assert_eq!(rt; write_whole(&mut Failing { left: 4 }, b"four"), Ok(()));
}
