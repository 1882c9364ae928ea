//! What an entry declares.
ghost use Rattle.std.specs.Prelude.{◌≡◌, length};

mod numbers;

/// The parts of a tuple: the first `len` of four numbers, or all of them where it is crowded.
// The length stands beside them since it may be above four, which the check refuses: no list of four could tell that.
#[derive(Clone, Copy, PartialEq, Eq, Debug)]
pub struct Parts {
    pub len: u8,
    pub numbers: [u8; 4],
    ghost four: { length numbers ≡ 4 },
}

/// An arity: what kind of trees there are under its number.
#[derive(Clone, Copy, PartialEq, Eq, Debug)]
pub enum Arity {
    Name,
    Data,
    Tick,
    Tuple(Parts),
    /// A name of the arity `names` before a tree of the arity `body`.
    Binding { names: u8, body: u8 },
}

/// A constructor makes a tree of the data arity `makes` of a tree of the arity `takes`.
#[derive(Clone, Copy, PartialEq, Eq, Debug)]
pub struct Constructor {
    pub makes: u8,
    pub takes: u8,
}

/// A row stands for a tree once the variables have values.
#[derive(Clone, Copy, PartialEq, Eq, Debug)]
pub enum Row {
    Variable(u8),
    Apply { constructor: u8, row: u8 },
    Tuple { arity: u8, rows: Parts },
    Bind { arity: u8, variable: u8, row: u8 },
}

/// One declaration of any of the four groups.
#[derive(Clone, Copy, PartialEq, Eq, Debug)]
pub enum Item {
    Arity(Arity),
    Constructor(Constructor),
    /// A variable, by its arity.
    Variable(u8),
    Row(Row),
}
