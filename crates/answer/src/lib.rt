// Why an operation refuses: the error in every operation's answer, with the number that the documents give it and the
// place that it names.
#![tactic(auto)]

ghost use Rattle.std.specs.Prelude.{◌≡◌};
ghost use Rattle.answer.specs.Answer.{number_of, place_of};

// The variants stand in the order in which they are checked.
#[derive(Clone, Copy, Debug, PartialEq, Eq)]
pub enum Refusal {
    // Of a rule file: its length in bytes.
    FileLength,
    // The word count that it states.
    FileWordCount,
    // Too many variables or clauses.
    TooMany,
    // Where its prefix ends.
    PrefixEnd,
    // This clause does not fit, or, past the last one, the clauses do not end at the prefix.
    ClauseExtent(usize),
    // This clause has a literal of 2n or more.
    LiteralOutOfRange(usize),
    // This clause has a variable twice.
    RepeatedVariable(usize),
    // The variables of this clause do not rise.
    UnorderedVariables(usize),
    // This clause equals an earlier one.
    RepeatedClause(usize),
    // The weights of this variable.
    MalformedWeights(usize),
    // The product of all totals.
    WholeTooLarge,
    // Of a verdict's limits: the lower is over the upper.
    LimitsOutOfOrder,
    // The upper is over the whole.
    LimitOverWhole,
    // Of a cut: its level is over the number of variables.
    LevelTooHigh,
    // Of a cut's marks: the whole is over 2^53.
    WholeOverPlotted,
    // Of a derivation: its length in bytes.
    DerivationLength,
    // The counts that it states.
    DerivationCounts,
    // This line does not fit, or, past the last one, the lines do not end at the trailer.
    LineExtent(usize),
    // The literals of this line.
    LineLiterals(usize),
    // This line is no blocking clause.
    NotBlocking(usize),
    // A parent or the variable of this line is not there.
    MissingParent(usize),
    // This line is not the resolvent of its parents.
    NotResolvent(usize),
    // The value of this line.
    WrongValue(usize),
    // The reference that closes it names no empty clause.
    WrongClosing,
    // Of a derivation that is to be written: it passes a limit.
    DerivationTooLong,
    // Of a repair: the buffer is shorter than the file.
    BufferTooShort,
    // Of a job list: too many bytes or lines.
    ListTooLong,
}

impl Refusal {
    // The documents' number.
    pub fn number(self) -> u32
        ensures { result ≡ number_of self }
    {
        match self {
            Refusal::FileLength => 1,
            Refusal::FileWordCount => 2,
            Refusal::TooMany => 3,
            Refusal::PrefixEnd => 4,
            Refusal::ClauseExtent(_) => 5,
            Refusal::LiteralOutOfRange(_) => 6,
            Refusal::RepeatedVariable(_) => 7,
            Refusal::UnorderedVariables(_) => 23,
            Refusal::RepeatedClause(_) => 26,
            Refusal::MalformedWeights(_) => 8,
            Refusal::WholeTooLarge => 9,
            Refusal::LimitsOutOfOrder => 10,
            Refusal::LimitOverWhole => 11,
            Refusal::LevelTooHigh => 12,
            Refusal::WholeOverPlotted => 27,
            Refusal::DerivationLength => 13,
            Refusal::DerivationCounts => 14,
            Refusal::LineExtent(_) => 15,
            Refusal::LineLiterals(_) => 16,
            Refusal::NotBlocking(_) => 17,
            Refusal::MissingParent(_) => 18,
            Refusal::NotResolvent(_) => 19,
            Refusal::WrongValue(_) => 20,
            Refusal::WrongClosing => 21,
            Refusal::DerivationTooLong => 22,
            Refusal::BufferTooShort => 25,
            Refusal::ListTooLong => 24,
        }
    }

    // The clause, variable or line that it names, if it names one.
    pub fn place(self) -> Option<usize>
        ensures { result ≡ place_of self }
    {
        match self {
            Refusal::ClauseExtent(clause)
            | Refusal::LiteralOutOfRange(clause)
            | Refusal::RepeatedVariable(clause)
            | Refusal::UnorderedVariables(clause)
            | Refusal::RepeatedClause(clause) => Some(clause),
            Refusal::MalformedWeights(variable) => Some(variable),
            Refusal::LineExtent(line)
            | Refusal::LineLiterals(line)
            | Refusal::NotBlocking(line)
            | Refusal::MissingParent(line)
            | Refusal::NotResolvent(line)
            | Refusal::WrongValue(line) => Some(line),
            _ => None,
        }
    }
}
