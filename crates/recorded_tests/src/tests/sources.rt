//! The sources of outputs in these tests: calls that fail, bytes that come later, and bytes that are missing.

use recorded::Source;
use std::io;
use std::io::ErrorKind;

/// A source that fails in some calls: requests for its length, or reads.
#[derive(Drop)]
pub struct Failing<'a> {
    all: &'a [u8],
    calls_left: usize,
    kind: ErrorKind,
    fails_on: bool,
}

impl<'a> Failing<'a> {
    /// Every call after the first n fails.
    pub fn new(all: &'a [u8], calls: usize, kind: ErrorKind) -> Failing<'a> {
        Failing {
            all,
            calls_left: calls,
            kind,
            fails_on: true,
        }
    }

    /// The call after the first n fails, and no other.
    pub fn once(all: &'a [u8], calls: usize, kind: ErrorKind) -> Failing<'a> {
        Failing {
            fails_on: false,
            ..Failing::new(all, calls, kind)
        }
    }

    // Counts a call, and fails if it is one that is to fail.
    fn call(&mut self) -> io::Result<()> {
        if self.calls_left > 0 {
            self.calls_left -= 1;
            return Ok(());
        }
        if !self.fails_on {
            self.calls_left = usize::MAX;
        }
        Err(self.kind.into())
    }
}

impl Source for Failing<'_> {
    fn len(&mut self) -> io::Result<u64> {
        self.call()?;
        Source::len(&mut self.all)
    }

    fn read_at(&mut self, offset: u64, buffer: &mut [u8]) -> io::Result<()> {
        self.call()?;
        self.all.read_at(offset, buffer)
    }
}

/// A source that has more bytes at each request for its length.
#[derive(Drop)]
pub struct Growing<'a> {
    all: &'a [u8],
    lens: &'a [usize],
}

impl<'a> Growing<'a> {
    /// A source that returns these lengths, in order.
    pub fn new(all: &'a [u8], lens: &'a [usize]) -> Growing<'a> {
        Growing { all, lens }
    }
}

impl Source for Growing<'_> {
    fn len(&mut self) -> io::Result<u64> {
        let Some((len, later)) = self.lens.split_first() else {
            return Err(ErrorKind::Other.into());
        };
        self.lens = later;
        Ok(*len as u64)
    }

    fn read_at(&mut self, offset: u64, buffer: &mut [u8]) -> io::Result<()> {
        self.all.read_at(offset, buffer)
    }
}

/// A source that has fewer bytes than its length says.
#[derive(Drop)]
pub struct Shortened<'a> {
    all: &'a [u8],
    there: usize,
}

impl<'a> Shortened<'a> {
    /// A source of the first `there` of these bytes, with the length of all.
    pub fn new(all: &'a [u8], there: usize) -> Shortened<'a> {
        Shortened { all, there }
    }
}

impl Source for Shortened<'_> {
    fn len(&mut self) -> io::Result<u64> {
        Source::len(&mut self.all)
    }

    fn read_at(&mut self, offset: u64, buffer: &mut [u8]) -> io::Result<()> {
        let (mut there, _) = self.all.split_at(self.there.min(self.all.len()));
        there.read_at(offset, buffer)
    }
}
