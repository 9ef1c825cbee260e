//! The shelf of files and standard streams. It counts what fails and what was taken, and tells nothing of what they hold.

ghost use Rattle.std.specs.Prelude.{◌≡◌, ◌≤◌, ◌<◌, ◌^◌, [], None, length, drop};
ghost use Rattle.file_shelf.specs.Files.{ReadsWhole, GivesAll, TakesAll};

use shelf::{Fetched, Shelf, Stored, Text};
use std::io::{self, Read, Write};
use std::{fs, str};

/// Files by name; the name `-` is standard input for a fetch and standard output for a store. Messages go to the
/// error stream. A name that is not UTF-8 fails.
#[derive(Drop)]
pub struct FileShelf<'a> {
    rt: &'a HostRuntime,
    read_faults: u64,
    write_faults: u64,
    tell_faults: u64,
    taken: u64,
    ghost read_fits: { read_faults < 2 ^ 64 },
    ghost write_fits: { write_faults < 2 ^ 64 },
    ghost tell_fits: { tell_faults < 2 ^ 64 },
    ghost taken_fits: { taken < 2 ^ 64 },
}

/// How a reader ended, and how many bytes it gave.
#[derive(Clone, Copy)]
struct Taken {
    end: Fetched,
    count: u64,
}

/// Reads to the end, or past the limit. A read that gives nothing is the end. Where it is done, `into` has all that was
/// left in the reader, which stands at its end.
fn read_whole<R: Read>(reader: &mut R, limit: u64, into: &mut Text) -> Taken
    requires limit { limit ≤ 2 ^ 32 }
    requires empty { into.old ≡ [] }
    ensures counted { ReadsWhole limit result into.new }
    ensures whole { GivesAll (R.remaining reader.old) (R.remaining reader.new) result.end into.new }
{
    let mut buf = [0u8; 4096];
    let mut count = 0u64;
    for _turn in 0..limit + 1 {
        match reader.read(&mut buf) {
            Ok(0) => {
                return Taken {
                    end: Fetched::Done,
                    count,
                };
            }
            Ok(n) => {
                count += n as u64;
                if count > limit {
                    break;
                }
                if into.push_all(&buf[..n]).is_err() {
                    return Taken {
                        end: Fetched::Memory,
                        count,
                    };
                }
            }
            Err(_) => {
                return Taken {
                    end: Fetched::Failed,
                    count,
                };
            }
        }
    }
    Taken {
        end: Fetched::Long,
        count,
    }
}

/// The bytes behind the first `count` ones.
fn behind(bytes: &[u8], count: usize) -> &[u8]
    requires { count ≤ length bytes.now }
    ensures { result.now ≡ drop count bytes.now }
{
    &bytes[count..]
}

/// Writes all bytes, and says whether all were taken: then the writer holds them behind what it held. A write that takes
/// nothing of some bytes fails.
fn write_whole<W: Write>(writer: &mut W, bytes: &[u8]) -> bool
    ensures { TakesAll (W.contents writer.old) (W.contents writer.new) bytes.now result }
{
    let mut rest = bytes;
    while !rest.is_empty() {
        match writer.write(rest) {
            Ok(0) => return false,
            Ok(n) => rest = behind(rest, n),
            Err(_) => return false,
        }
    }
    writer.flush().is_ok()
}

impl<'a> FileShelf<'a> {
    /// A shelf whose counts are 0.
    pub fn new(rt: &'a HostRuntime) -> Self
        ensures read { result.read_faults ≡ 0 }
        ensures write { result.write_faults ≡ 0 }
        ensures tell { result.tell_faults ≡ 0 }
        ensures taken { result.taken ≡ 0 }
    {
        FileShelf {
            rt,
            read_faults: 0,
            write_faults: 0,
            tell_faults: 0,
            taken: 0,
        }
    }
}

/// The reader of a name, read to its end.
fn read_name(rt: &HostRuntime, name: &[u8], limit: u64, into: &mut Text) -> Taken
    requires limit { limit ≤ 2 ^ 32 }
    requires empty { into.old ≡ [] }
    ensures { ReadsWhole limit result into.new }
{
    if name == "-".as_bytes() {
        return read_whole(&mut rt.stdin(), limit, into);
    }
    let failed = Taken {
        end: Fetched::Failed,
        count: 0,
    };
    let Ok(path) = str::from_utf8(name) else {
        return failed;
    };
    match fs::open(rt, path) {
        Ok(mut file) => read_whole(&mut file, limit, into),
        Err(_) => failed,
    }
}

/// Writes a name's bytes, and says whether all were taken.
fn write_name(rt: &HostRuntime, name: &[u8], bytes: &[u8]) -> bool {
    if name == "-".as_bytes() {
        return write_whole(&mut rt.stdout(), bytes);
    }
    let Ok(path) = str::from_utf8(name) else {
        return false;
    };
    match fs::create(rt, path) {
        Ok(mut file) => write_whole(&mut file, bytes),
        Err(_) => false,
    }
}

impl<'a> Shelf for FileShelf<'a> {
    ghost meaning = { λ s. record {
      sources = None;
      stores = None;
      told = None;
      read_faults = s.read_faults;
      write_faults = s.write_faults;
      tell_faults = s.tell_faults;
      taken = s.taken;
      sure = None;
    } };

    fn fetch(&mut self, name: &[u8], limit: u64, into: &mut Text) -> Fetched {
        into.clear();
        let taken = read_name(self.rt, name, limit, into);
        self.taken = self.taken.saturating_add(taken.count);
        match taken.end {
            Fetched::Done => Fetched::Done,
            Fetched::Failed => {
                into.clear();
                self.read_faults = self.read_faults.saturating_add(1);
                Fetched::Failed
            }
            end => {
                into.clear();
                end
            }
        }
    }

    fn store(&mut self, name: &[u8], bytes: &[u8]) -> Stored {
        if write_name(self.rt, name, bytes) {
            return Stored::Done;
        }
        self.write_faults = self.write_faults.saturating_add(1);
        Stored::Failed
    }

    fn tell(&mut self, bytes: &[u8]) {
        if !write_whole(&mut self.rt.stderr(), bytes) {
            self.tell_faults = self.tell_faults.saturating_add(1);
        }
    }
}
