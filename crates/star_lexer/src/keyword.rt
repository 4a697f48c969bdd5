//! The words with a meaning of their own in the grammar. Every other word is a name.
ghost use Rattle.std.specs.Prelude.{◌≡◌, bytes_eq, find, map, option_map};
ghost use Rattle.star_lexer.specs.Keyword.{keyword_text, keyword_in, keyword_of};

/// A keyword. `is` and `null` stand in no statement, and are no names either.
#[derive(Clone, Copy, Debug, PartialEq, Eq)]
pub enum Keyword {
    And,
    Between,
    By,
    Count,
    Delete,
    Dimension,
    Fact,
    From,
    Group,
    Header,
    In,
    Int,
    Is,
    Key,
    Load,
    Max,
    Min,
    Not,
    Null,
    Or,
    References,
    Select,
    Sum,
    Text,
    Wait,
    Where,
}

/// Each keyword with its word.
const KEYWORDS: [(&[u8], Keyword); 26] = [
    (b"and", Keyword::And),
    (b"between", Keyword::Between),
    (b"by", Keyword::By),
    (b"count", Keyword::Count),
    (b"delete", Keyword::Delete),
    (b"dimension", Keyword::Dimension),
    (b"fact", Keyword::Fact),
    (b"from", Keyword::From),
    (b"group", Keyword::Group),
    (b"header", Keyword::Header),
    (b"in", Keyword::In),
    (b"int", Keyword::Int),
    (b"is", Keyword::Is),
    (b"key", Keyword::Key),
    (b"load", Keyword::Load),
    (b"max", Keyword::Max),
    (b"min", Keyword::Min),
    (b"not", Keyword::Not),
    (b"null", Keyword::Null),
    (b"or", Keyword::Or),
    (b"references", Keyword::References),
    (b"select", Keyword::Select),
    (b"sum", Keyword::Sum),
    (b"text", Keyword::Text),
    (b"wait", Keyword::Wait),
    (b"where", Keyword::Where),
];

impl Keyword {
    /// The keyword in lower case, as it is written.
    pub fn text(self) -> &'static [u8]
        ensures { result.now ≡ keyword_text self }
    {
        match self {
            Keyword::And => b"and",
            Keyword::Between => b"between",
            Keyword::By => b"by",
            Keyword::Count => b"count",
            Keyword::Delete => b"delete",
            Keyword::Dimension => b"dimension",
            Keyword::Fact => b"fact",
            Keyword::From => b"from",
            Keyword::Group => b"group",
            Keyword::Header => b"header",
            Keyword::In => b"in",
            Keyword::Int => b"int",
            Keyword::Is => b"is",
            Keyword::Key => b"key",
            Keyword::Load => b"load",
            Keyword::Max => b"max",
            Keyword::Min => b"min",
            Keyword::Not => b"not",
            Keyword::Null => b"null",
            Keyword::Or => b"or",
            Keyword::References => b"references",
            Keyword::Select => b"select",
            Keyword::Sum => b"sum",
            Keyword::Text => b"text",
            Keyword::Wait => b"wait",
            Keyword::Where => b"where",
        }
    }
}

/// The keyword that a word in lower case is, if it is one.
pub(crate) fn keyword_of(word: &[u8]) -> Option<Keyword>
    ensures { result ≡ keyword_of word.now }
{
    entry_of(word, &KEYWORDS)
}

/// The keyword beside a word in a table.
fn entry_of(word: &[u8], table: &[(&[u8], Keyword)]) -> Option<Keyword>
    ensures { result ≡ keyword_in (map (λ entry. (entry.0.now, entry.1)) table.now) word.now }
{
    first_entry(word, table)
}

fn first_entry(word: &[u8], table: &[(&[u8], Keyword)]) -> Option<Keyword>
    ensures { result ≡ option_map (λ e. e.1) (find (λ e. bytes_eq e.0.now word.now) table.now) }
{
    table
        .iter()
        .find(|entry| entry.0 == word)
        .map(|entry| entry.1)
}
