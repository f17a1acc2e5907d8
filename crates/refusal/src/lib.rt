// The causes of a refusal, each with its number and its place. A number, once given, keeps its cause for good: 15, the
// inverse of zero, and 16, a later layer's basis is dependent, are retired and not used again.
#![tactic(auto)]

ghost use Rattle.std.specs.Prelude.{◌≡◌};
ghost use Rattle.refusal.specs.Numbers.{number_of, number_of_list, place_of, round_of};

// Why something was refused: one case for each number, in the order of the numbers. Sections and lists are counted from
// 1, basis places, queries and rounds from 0.
#[derive(Clone, Copy, Debug, PartialEq, Eq)]
pub enum Cause {
    // 1: the bytes end in a count or its entries
    BytesEnd { section: usize },
    // 2: a count differs from the one due, in another section than 4
    CountDiffers { section: usize },
    // 3: bytes after the last section
    TrailingBytes,
    // 4: k out of range
    DimensionOutOfRange,
    // 5: R out of range
    RateOutOfRange,
    // 6: η out of range
    StepOutOfRange,
    // 7: k < R + η, or k < η in a lone fold
    DimensionTooSmall,
    // 8: a basis element lies in the span of earlier ones; the first such place
    BasisDependent { place: usize },
    // 9: no query, or over 256
    QueryCountOutOfRange,
    // 10: a query index is 2^k or more; the first such query
    QueryOutOfRange { query: usize },
    // 11: a round check fails; the entries read are told beside the cause
    RoundCheckFails { query: usize, round: usize },
    // 12: layer r has degree d or more; that degree
    DegreeTooLarge { degree: usize },
    // 13: a lent list has the wrong length: 1 basis, 2 challenges, 3 word or encoder coefficients, 4 store, 5 last
    // coefficients, 6 output values, 7 next basis, 8 bytes of a transcript
    WrongLength { list: Lent },
    // 14: the program's input has over 65,536 bytes
    InputTooLong,
    // 17: two queries share a first-layer coset; the first query that lies in the coset of an earlier one
    CosetShared { query: usize },
}

// The lists that are lent, in the order of their numbers, from 1 on.
#[derive(Clone, Copy, Debug, PartialEq, Eq)]
pub enum Lent {
    // 1
    Basis,
    // 2
    Challenges,
    // 3: the word, or the coefficients that are encoded
    Word,
    // 4
    Store,
    // 5: the last coefficients
    Last,
    // 6: the values or coefficients that are put out
    Values,
    // 7: the basis of the next coset
    NextBasis,
    // 8: the bytes of a transcript
    Bytes,
}

impl Lent {
    pub fn number(self) -> usize
        ensures { result ≡ number_of_list self }
    {
        match self {
            Lent::Basis => 1,
            Lent::Challenges => 2,
            Lent::Word => 3,
            Lent::Store => 4,
            Lent::Last => 5,
            Lent::Values => 6,
            Lent::NextBasis => 7,
            Lent::Bytes => 8,
        }
    }
}

impl Cause {
    pub fn number(self) -> u64
        ensures { result ≡ number_of self }
    {
        match self {
            Cause::BytesEnd { section: _ } => 1,
            Cause::CountDiffers { section: _ } => 2,
            Cause::TrailingBytes => 3,
            Cause::DimensionOutOfRange => 4,
            Cause::RateOutOfRange => 5,
            Cause::StepOutOfRange => 6,
            Cause::DimensionTooSmall => 7,
            Cause::BasisDependent { place: _ } => 8,
            Cause::QueryCountOutOfRange => 9,
            Cause::QueryOutOfRange { query: _ } => 10,
            Cause::RoundCheckFails { query: _, round: _ } => 11,
            Cause::DegreeTooLarge { degree: _ } => 12,
            Cause::WrongLength { list: _ } => 13,
            Cause::InputTooLong => 14,
            Cause::CosetShared { query: _ } => 17,
        }
    }

    pub fn place(self) -> Option<usize>
        ensures { result ≡ place_of self }
    {
        match self {
            Cause::BytesEnd { section } | Cause::CountDiffers { section } => Some(section),
            Cause::BasisDependent { place } => Some(place),
            Cause::QueryOutOfRange { query }
            | Cause::RoundCheckFails { query, round: _ }
            | Cause::CosetShared { query } => Some(query),
            Cause::DegreeTooLarge { degree } => Some(degree),
            Cause::WrongLength { list } => Some(list.number()),
            Cause::TrailingBytes
            | Cause::DimensionOutOfRange
            | Cause::RateOutOfRange
            | Cause::StepOutOfRange
            | Cause::DimensionTooSmall
            | Cause::QueryCountOutOfRange
            | Cause::InputTooLong => None,
        }
    }

    pub fn round(self) -> Option<usize>
        ensures { result ≡ round_of self }
    {
        match self {
            Cause::RoundCheckFails { query: _, round } => Some(round),
            _ => None,
        }
    }
}
