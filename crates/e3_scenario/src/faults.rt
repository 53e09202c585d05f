// Why bytes spell no scenario.

/// A key of a scenario.
#[derive(Clone, Copy, Debug, PartialEq, Eq)]
pub enum Field {
    Weights,
    Rows,
    Loss,
    Repeat,
    Luck,
    Steps,
}

/// Why bytes were read as no scenario. The first fault in the order of this list is told; of the five that name a step,
/// counted from 1, the first of the first faulty item.
#[derive(Clone, Copy, Debug, PartialEq, Eq)]
pub enum ScenarioFault {
    /// There are more than 4,194,304 bytes.
    TooLong,
    /// They are no TOML document.
    NotToml,
    /// A key is none of the six.
    UnknownKey,
    /// A key that must be there is missing, or a value is of another kind.
    Kind { field: Field },
    /// A number, a count or a row's text is outside its form.
    Range { field: Field },
    /// Two rows have one key.
    RowTwice,
    /// An item is none of the grammar, may not stand in a group, or passes a limit.
    BadLine { step: u32 },
    /// A site does not exist, or is not one that the item may name.
    NoSite { step: u32 },
    /// The name was not begun in an earlier step.
    NoTxn { step: u32 },
    /// The name of a begin was begun before.
    NameTwice { step: u32 },
    /// A split does not name each site once, or the sites of a recover do not lie in one part.
    Parts { step: u32 },
    /// An allocation was refused.
    NoMemory,
}
