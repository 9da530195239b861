//! The words for what is wrong with an object.
ghost use Rattle.std.specs.Prelude.{◌≡◌};
ghost use Rattle.json_keys.specs.Words.{rule_word};

/// A rule that a key of an object breaks, by itself or beside what a site holds.
#[derive(Clone, Copy, Debug, PartialEq, Eq)]
pub enum Rule {
    /// The key is not in the table.
    Unknown,
    /// The key is not there.
    Missing,
    /// The value is of another kind.
    Kind,
    /// A list has too many members.
    Many,
    /// A text is too short or too long.
    Length,
    /// A text has bytes that may not stand in it.
    Bytes,
    /// A number is too small or too great.
    Range,
    /// A path is one of the site's own.
    Reserved,
    /// Two members of a list have one name, or two rows one cell.
    Twice,
    /// What a member of a list names is not there.
    Absent,
    /// A chain leads back to itself.
    Cycle,
    /// A chain is too long.
    Deep,
    /// Two keys do not go together.
    Pair,
    /// Another row has this text, of which no two rows have the same.
    Taken,
    /// The row may not be removed.
    Locked,
    /// Other rows name the row that is to be removed.
    Used,
    /// There is no greater number to give.
    Full,
}

impl Rule {
    /// The word that the rule is told by.
    pub fn word(&self) -> &'static str
        ensures { result.now ≡ rule_word self.now }
    {
        match self {
            Rule::Unknown => "unknown",
            Rule::Missing => "missing",
            Rule::Kind => "kind",
            Rule::Many => "many",
            Rule::Length => "length",
            Rule::Bytes => "bytes",
            Rule::Range => "range",
            Rule::Reserved => "reserved",
            Rule::Twice => "twice",
            Rule::Absent => "absent",
            Rule::Cycle => "cycle",
            Rule::Deep => "deep",
            Rule::Pair => "pair",
            Rule::Taken => "taken",
            Rule::Locked => "locked",
            Rule::Used => "used",
            Rule::Full => "full",
        }
    }
}
