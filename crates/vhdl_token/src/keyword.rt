// The reserved words.
ghost use Rattle.std.specs.Prelude.{◌≡◌, ◌≢◌, IfSome, IsNone};
ghost use Rattle.vhdl_token.specs.declared.keyword.Keyword.{Keyword};
ghost use Rattle.vhdl_token.specs.Keyword.{keyword_text, keyword_among, keyword_of};

/// A reserved word, which is never an identifier of a vbe, fsm or vst text.
#[derive(Clone, Copy, PartialEq, Eq)]
pub enum Keyword {
    After,
    And,
    Architecture,
    Assert,
    Begin,
    Bit,
    BitVector,
    Block,
    Bus,
    Case,
    Component,
    Constant,
    Downto,
    Else,
    Elsif,
    End,
    Entity,
    Generic,
    Guarded,
    If,
    In,
    Inout,
    Is,
    Map,
    MuxBit,
    MuxVector,
    Nand,
    Nor,
    Not,
    Of,
    Or,
    Others,
    Out,
    Port,
    Process,
    RegBit,
    RegBitVector,
    RegVector,
    Register,
    Report,
    Severity,
    Signal,
    Then,
    To,
    Type,
    When,
    WorBit,
    WorVector,
    Xnor,
    Xor,
}

/// All of them, in the order of their texts.
static KEYWORDS: [Keyword; 50] = [
    Keyword::After,
    Keyword::And,
    Keyword::Architecture,
    Keyword::Assert,
    Keyword::Begin,
    Keyword::Bit,
    Keyword::BitVector,
    Keyword::Block,
    Keyword::Bus,
    Keyword::Case,
    Keyword::Component,
    Keyword::Constant,
    Keyword::Downto,
    Keyword::Else,
    Keyword::Elsif,
    Keyword::End,
    Keyword::Entity,
    Keyword::Generic,
    Keyword::Guarded,
    Keyword::If,
    Keyword::In,
    Keyword::Inout,
    Keyword::Is,
    Keyword::Map,
    Keyword::MuxBit,
    Keyword::MuxVector,
    Keyword::Nand,
    Keyword::Nor,
    Keyword::Not,
    Keyword::Of,
    Keyword::Or,
    Keyword::Others,
    Keyword::Out,
    Keyword::Port,
    Keyword::Process,
    Keyword::RegBit,
    Keyword::RegBitVector,
    Keyword::RegVector,
    Keyword::Register,
    Keyword::Report,
    Keyword::Severity,
    Keyword::Signal,
    Keyword::Then,
    Keyword::To,
    Keyword::Type,
    Keyword::When,
    Keyword::WorBit,
    Keyword::WorVector,
    Keyword::Xnor,
    Keyword::Xor,
];

/// The first of these reserved words that the bytes are.
fn keyword_among(keywords: &[Keyword], word: &[u8]) -> Option<Keyword>
    ensures first { result ≡ keyword_among word.now keywords.now }
    ensures spelled { IfSome result (λ k. keyword_text k ≡ word.now) }
{
    for keyword in keywords {
        if keyword.as_str().as_bytes() == word {
            return Some(*keyword);
        }
    }
    None
}

impl Keyword {
    /// The word in lower case. Takes no memory.
    pub fn as_str(self) -> &'static str
        ensures { result.now ≡ keyword_text self }
    {
        match self {
            Keyword::After => "after",
            Keyword::And => "and",
            Keyword::Architecture => "architecture",
            Keyword::Assert => "assert",
            Keyword::Begin => "begin",
            Keyword::Bit => "bit",
            Keyword::BitVector => "bit_vector",
            Keyword::Block => "block",
            Keyword::Bus => "bus",
            Keyword::Case => "case",
            Keyword::Component => "component",
            Keyword::Constant => "constant",
            Keyword::Downto => "downto",
            Keyword::Else => "else",
            Keyword::Elsif => "elsif",
            Keyword::End => "end",
            Keyword::Entity => "entity",
            Keyword::Generic => "generic",
            Keyword::Guarded => "guarded",
            Keyword::If => "if",
            Keyword::In => "in",
            Keyword::Inout => "inout",
            Keyword::Is => "is",
            Keyword::Map => "map",
            Keyword::MuxBit => "mux_bit",
            Keyword::MuxVector => "mux_vector",
            Keyword::Nand => "nand",
            Keyword::Nor => "nor",
            Keyword::Not => "not",
            Keyword::Of => "of",
            Keyword::Or => "or",
            Keyword::Others => "others",
            Keyword::Out => "out",
            Keyword::Port => "port",
            Keyword::Process => "process",
            Keyword::RegBit => "reg_bit",
            Keyword::RegBitVector => "reg_bit_vector",
            Keyword::RegVector => "reg_vector",
            Keyword::Register => "register",
            Keyword::Report => "report",
            Keyword::Severity => "severity",
            Keyword::Signal => "signal",
            Keyword::Then => "then",
            Keyword::To => "to",
            Keyword::Type => "type",
            Keyword::When => "when",
            Keyword::WorBit => "wor_bit",
            Keyword::WorVector => "wor_vector",
            Keyword::Xnor => "xnor",
            Keyword::Xor => "xor",
        }
    }
    /// The reserved word that these bytes are, in lower case. Takes no memory.
    pub fn from_word(word: &[u8]) -> Option<Self>
        ensures first { result ≡ keyword_of word.now }
        ensures spelled { IfSome result (λ k. keyword_text k ≡ word.now) }
        ensures none { IsNone result → (k : Keyword) → keyword_text k ≢ word.now }
    {
        keyword_among(&KEYWORDS, word)
    }
}
