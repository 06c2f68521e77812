// The kinds of tokens, and marks.
ghost use Rattle.std.specs.Prelude.{◌≡◌, ◌↔◌, IsTrue, nat_eq};
ghost use Rattle.dx_script_tokens.specs.Kinds.{is_script_mark, mark_kind, kind_number};

/// Which token it is.
#[derive(Clone, Copy)]
pub enum ScriptKind {
    // Words that stand for themselves.
    Create,
    Table,
    Target,
    Source,
    As,
    Select,
    Distinct,
    From,
    Where,
    And,
    Not,
    Exists,
    Insert,
    Into,
    Skolem,
    Place,
    /// The word TEXT.
    Type,
    /// The word m.
    Own,
    /// The word n.
    Other,
    /// m and a number.
    Match,
    /// k and a number.
    Keep,
    /// a and a number.
    Alias,
    /// c and a number.
    Column,
    /// Any other word.
    Word,
    /// A number.
    Number,
    /// A name in double quotes.
    Name,
    /// A text in single quotes.
    Text,
    Open,
    Close,
    Comma,
    Semicolon,
    Dot,
    Equal,
    Star,
}

impl ScriptKind {
    // The number of a kind, by which kinds are compared.
    fn rank(self) -> u8
        ensures { result ≡ kind_number self }
    {
        match self {
            ScriptKind::Create => 0,
            ScriptKind::Table => 1,
            ScriptKind::Target => 2,
            ScriptKind::Source => 3,
            ScriptKind::As => 4,
            ScriptKind::Select => 5,
            ScriptKind::Distinct => 6,
            ScriptKind::From => 7,
            ScriptKind::Where => 8,
            ScriptKind::And => 9,
            ScriptKind::Not => 10,
            ScriptKind::Exists => 11,
            ScriptKind::Insert => 12,
            ScriptKind::Into => 13,
            ScriptKind::Skolem => 14,
            ScriptKind::Place => 15,
            ScriptKind::Type => 16,
            ScriptKind::Own => 17,
            ScriptKind::Other => 18,
            ScriptKind::Match => 19,
            ScriptKind::Keep => 20,
            ScriptKind::Alias => 21,
            ScriptKind::Column => 22,
            ScriptKind::Word => 23,
            ScriptKind::Number => 24,
            ScriptKind::Name => 25,
            ScriptKind::Text => 26,
            ScriptKind::Open => 27,
            ScriptKind::Close => 28,
            ScriptKind::Comma => 29,
            ScriptKind::Semicolon => 30,
            ScriptKind::Dot => 31,
            ScriptKind::Equal => 32,
            ScriptKind::Star => 33,
        }
    }

    /// Whether two kinds are one.
    pub fn is(self, other: ScriptKind) -> bool
        ensures value { result ≡ nat_eq (kind_number self) (kind_number other) }
        ensures same { IsTrue result ↔ (self ≡ other) }
    {
        self.rank() == other.rank()
    }
}

pub(crate) fn is_mark_byte(b: u8) -> bool
    ensures { result ≡ is_script_mark b }
{
    matches!(b, b'(' | b')' | b',' | b';' | b'.' | b'=' | b'*')
}

pub(crate) fn mark(b: u8) -> ScriptKind
    ensures { result ≡ mark_kind b }
{
    match b {
        b'(' => ScriptKind::Open,
        b')' => ScriptKind::Close,
        b',' => ScriptKind::Comma,
        b';' => ScriptKind::Semicolon,
        b'.' => ScriptKind::Dot,
        b'=' => ScriptKind::Equal,
        _ => ScriptKind::Star,
    }
}
