// A writer with a log of what it took, and the loop that hands over all bytes.
ghost use Rattle.std.specs.Prelude.{◌≡◌, ◌≢◌, ◌<◌, ℕ, [], ◌++◌, length, take, Some, OnOk, OnErr, IfErr};
ghost use Rattle.std.specs.IoError.{error_kind};
ghost use Rattle.std.specs.Io.{WritesAtMost};
ghost use Rattle.std.specs.Io.KnownBytes.{WriteAppends};

use dx_ports::WriteLog;
use std::io;
use std::io::{ErrorKind, Write};

/// A writer with a log. Each write logs the bytes that it took, and no others.
#[derive(Drop)]
pub struct Logged<W> {
    pub to: W,
    pub log: WriteLog,
}

impl<W> Logged<W> {
    /// A writer, of which nothing was taken yet.
    pub fn new(to: W) -> Logged<W>
        ensures writer { result.to ≡ to }
        ensures said { result.log.written.said ≡ [] }
    {
        Logged {
            to,
            log: WriteLog::new(),
        }
    }
}

impl<W: Write> Write for Logged<W> {
    ghost contents = { λ s. Some s.log.written.said };

    fn write(&mut self, buf: &[u8]) -> io::Result<usize>
        ensures bound { WritesAtMost result buf.now }
        ensures bytes { WriteAppends (⟦<Logged<W> as Write>⟧.contents self.old) (⟦<Logged<W> as Write>⟧.contents self.new)
            result buf.now }
        ensures inner { WriteAppends (W.contents self.old.to) (W.contents self.new.to) result buf.now }
    {
        match self.to.write(buf) {
            Ok(taken) => {
                self.log.say(&buf[..taken]);
                Ok(taken)
            }
            Err(error) => Err(error),
        }
    }

    fn flush(&mut self) -> io::Result<()> {
        self.to.flush()
    }
}

/// Hands over all bytes, in as many writes as it takes. A write that a signal interrupts is tried again. After an error
/// not all of them were taken: a front, which may be empty.
pub fn write_whole<W: Write>(to: &mut Logged<W>, bytes: &[u8]) -> io::Result<()>
    ensures whole { OnOk result (to.new.log.written.said ≡ to.old.log.written.said ++ bytes.now) }
    ensures front { OnErr result ((k : ℕ) × (k < length bytes.now)
        × (to.new.log.written.said ≡ to.old.log.written.said ++ take k bytes.now)) }
    ensures again { IfErr result (λ e. error_kind e ≢ ErrorKind.Interrupted) }
{
    let mut done = 0;
    'writes: for _ in 0..u64::MAX {
        if done >= bytes.len() {
            return Ok(());
        }
        match to.write(&bytes[done..]) {
            Ok(0) => return Err(io::Error::from(ErrorKind::WriteZero)),
            Ok(taken) => done += taken,
            Err(error) if error.kind() == ErrorKind::Interrupted => {}
            Err(error) => return Err(error),
        }
    }
    if done >= bytes.len() {
        return Ok(());
    }
    Err(io::Error::from(ErrorKind::TimedOut))
}
