// What the calls of a port have answered. It exists only in proofs: it has no bytes, and its methods do nothing when they run.
ghost use Rattle.std.specs.Prelude.{◌≡◌, List, [], ◌∷◌, ◌++◌, get_or};
ghost use Rattle.std.specs.Borrow.{ftrue};
ghost use Rattle.dx_ports.specs.States.{Found, Written, bytes, more_than, nothing};

use std::marker::{Model, PhantomData};

/// What was answered to the reads, in order. A clause reads it as `answers`.
#[derive(Drop)]
pub struct ReadLog {
    marker: PhantomData<u8>,
    pub ghost answers: { List Found },
}

impl Model for ReadLog {
    ghost also_owns = { λ _. ftrue };
}

impl ReadLog {
    /// Nothing was read.
    pub fn new() -> ReadLog
        ensures { result.answers ≡ [] }
    {
        ReadLog {
            marker: PhantomData,
        }
    }

    /// The file of this name has these bytes.
    pub fn found(&mut self, _name: &[u8], _bytes: &[u8])
        ensures { self.new.answers ≡ self.old.answers ++ (record { name = _name.now; sight = bytes _bytes.now }) ∷ [] }
    {}

    /// There is no file of this name.
    pub fn missed(&mut self, _name: &[u8])
        ensures { self.new.answers ≡ self.old.answers ++ (record { name = _name.now; sight = nothing }) ∷ [] }
    {}

    /// The file of this name has more bytes than the one number in `_limit`.
    pub fn longer(&mut self, _name: &[u8], _limit: &[u64])
        ensures { self.new.answers ≡ self.old.answers
            ++ (record { name = _name.now; sight = more_than (get_or _limit.now 0 0) }) ∷ [] }
    {}
}

/// What was written: the files that were put, and what was said. A clause reads it as `written`.
#[derive(Drop)]
pub struct WriteLog {
    marker: PhantomData<u8>,
    pub ghost written: { Written },
}

impl Model for WriteLog {
    ghost also_owns = { λ _. ftrue };
}

impl WriteLog {
    /// Nothing was written.
    pub fn new() -> WriteLog
        ensures { result.written ≡ record { files = []; said = [] } }
    {
        WriteLog {
            marker: PhantomData,
        }
    }

    /// A file of this name was put, with these bytes.
    pub fn put(&mut self, _name: &[u8], _bytes: &[u8])
        ensures { self.new.written ≡ record {
          files = self.old.written.files ++ (_name.now, _bytes.now) ∷ [];
          said = self.old.written.said;
        } }
    {}

    /// These bytes were said.
    pub fn say(&mut self, _bytes: &[u8])
        ensures { self.new.written ≡ record {
          files = self.old.written.files;
          said = self.old.written.said ++ _bytes.now;
        } }
    {}
}
