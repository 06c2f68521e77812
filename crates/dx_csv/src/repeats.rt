// Whether the texts of a column come more than once.
ghost use Rattle.std.specs.Prelude.{◌≡◌, ◌<◌, ◌^◌, IsTrue};

use dx_base::Text;

// So many bytes decide a sort at once; longer texts that are equal take long to sort.
const SHORT: usize = 8;

// Of each span of rows the first ones are a sample.
const SPAN: usize = 1 << 16;

const SAMPLE: usize = 1 << 12;

// Texts come often if one in eight of the first sample was there before.
const OFTEN: usize = SAMPLE / 8;

/// How many texts of a column were there before, of those that were looked for.
#[derive(Drop)]
pub(crate) struct Repeats {
    met: usize,
}

impl Repeats {
    /// None yet.
    pub(crate) fn new() -> Repeats
        ensures { result.met ≡ 0 }
    {
        Repeats { met: 0 }
    }

    /// Whether the text of a row is to be looked for. Where most differ, to look for each takes more time than to sort them
    /// all; of long ones a few that were there before make up for it.
    pub(crate) fn are_likely(&self, row: usize, text: &Text) -> bool
        ensures first { row < 2 ^ 12 → IsTrue result }
    {
        if row < SAMPLE || self.met >= OFTEN {
            return true;
        }
        text.bytes().len() > SHORT && (self.met > 0 || row % SPAN < SAMPLE)
    }

    /// A text was looked for, and was there before or not.
    pub(crate) fn note(&mut self, was_there: bool) {
        if was_there {
            self.met = self.met.saturating_add(1);
        }
    }
}
