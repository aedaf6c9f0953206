//! The marks and the reserved words that the grammar has.
ghost use Rattle.std.specs.Prelude.{◌≡◌, map};
ghost use Rattle.mpy_expressions.specs.Terminals.{word_among, word_of};

/// A mark or a reserved word of the grammar.
#[derive(Clone, Copy, PartialEq, Eq, Debug, Drop)]
pub enum Word {
    /// `(`
    LeftParen,
    /// `)`
    RightParen,
    /// `[`
    LeftBracket,
    /// `]`
    RightBracket,
    /// `:`
    Colon,
    /// `,`
    Comma,
    /// `.`
    Dot,
    /// `=`
    Assign,
    /// `==`
    Equal,
    /// `!=`
    NotEqual,
    /// `<`
    Less,
    /// `<=`
    LessEqual,
    /// `>`
    Greater,
    /// `>=`
    GreaterEqual,
    /// `+`
    Plus,
    /// `-`
    Minus,
    /// `*`
    Star,
    /// `//`
    DoubleSlash,
    /// `%`
    Percent,
    /// `**`
    DoubleStar,
    /// `+=`
    PlusAssign,
    /// `-=`
    MinusAssign,
    /// `*=`
    StarAssign,
    /// `//=`
    DoubleSlashAssign,
    /// `%=`
    PercentAssign,
    And,
    Break,
    Continue,
    Def,
    Elif,
    Else,
    False,
    For,
    If,
    In,
    Not,
    Or,
    Pass,
    Return,
    True,
    While,
    /// `{`, of rules alone
    LeftBrace,
    /// `}`, of rules alone
    RightBrace,
}

// Each with its bytes.
const WORDS: [(&[u8], Word); 41] = [
    (b"(", Word::LeftParen),
    (b")", Word::RightParen),
    (b"[", Word::LeftBracket),
    (b"]", Word::RightBracket),
    (b":", Word::Colon),
    (b",", Word::Comma),
    (b".", Word::Dot),
    (b"=", Word::Assign),
    (b"==", Word::Equal),
    (b"!=", Word::NotEqual),
    (b"<", Word::Less),
    (b"<=", Word::LessEqual),
    (b">", Word::Greater),
    (b">=", Word::GreaterEqual),
    (b"+", Word::Plus),
    (b"-", Word::Minus),
    (b"*", Word::Star),
    (b"//", Word::DoubleSlash),
    (b"%", Word::Percent),
    (b"**", Word::DoubleStar),
    (b"+=", Word::PlusAssign),
    (b"-=", Word::MinusAssign),
    (b"*=", Word::StarAssign),
    (b"//=", Word::DoubleSlashAssign),
    (b"%=", Word::PercentAssign),
    (b"and", Word::And),
    (b"break", Word::Break),
    (b"continue", Word::Continue),
    (b"def", Word::Def),
    (b"elif", Word::Elif),
    (b"else", Word::Else),
    (b"False", Word::False),
    (b"for", Word::For),
    (b"if", Word::If),
    (b"in", Word::In),
    (b"not", Word::Not),
    (b"or", Word::Or),
    (b"pass", Word::Pass),
    (b"return", Word::Return),
    (b"True", Word::True),
    (b"while", Word::While),
];

// The word that the bytes spell, among some.
fn word_among(words: &[(&[u8], Word)], bytes: &[u8]) -> Option<Word>
    ensures { result ≡ word_among (map (λ e. (e.0.now, e.1)) words.now) bytes.now }
{
    for (text, word) in words {
        if *text == bytes {
            return Some(*word);
        }
    }
    None
}

/// The mark or reserved word that the bytes spell, if the grammar has it.
#[tactic(auto, unfolding(crate::specs::Terminals::word_of))]
pub(crate) fn word_of(bytes: &[u8]) -> Option<Word>
    ensures { result ≡ word_of bytes.now }
{
    word_among(&WORDS, bytes)
}
