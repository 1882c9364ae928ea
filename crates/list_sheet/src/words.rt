//! What a sheet declares, in words.
use sheet::item::{Arity, Constructor, Parts, Row};
use std::fmt;

/// A part of a sheet that is printed in words.
#[derive(Clone, Copy)]
pub struct InWords<T: Copy>(pub T);

// The numbers with commas between them.
impl fmt::Display for InWords<Parts> {
    fn fmt<W: fmt::Write>(&self, f: &mut fmt::Formatter<W>) -> fmt::Result {
        for (k, part) in self.0.as_slice().iter().enumerate() {
            let comma = if k == 0 { "" } else { ", " };
            write!(f, "{comma}{part}")?;
        }
        Ok(())
    }
}

impl fmt::Display for InWords<Arity> {
    fn fmt<W: fmt::Write>(&self, f: &mut fmt::Formatter<W>) -> fmt::Result {
        match self.0 {
            Arity::Name => f.write_str("names"),
            Arity::Data => f.write_str("data"),
            Arity::Tick => f.write_str("ticks"),
            Arity::Tuple(parts) if parts.len == 0 => f.write_str("tuple of nothing"),
            Arity::Tuple(parts) => write!(f, "tuple of {}", InWords(parts)),
            Arity::Binding { names, body } => write!(f, "binding of {names} over {body}"),
        }
    }
}

impl fmt::Display for InWords<Constructor> {
    fn fmt<W: fmt::Write>(&self, f: &mut fmt::Formatter<W>) -> fmt::Result {
        let Constructor { makes, takes } = self.0;
        write!(f, "makes {makes} of {takes}")
    }
}

impl fmt::Display for InWords<Row> {
    fn fmt<W: fmt::Write>(&self, f: &mut fmt::Formatter<W>) -> fmt::Result {
        match self.0 {
            Row::Variable(variable) => write!(f, "variable {variable}"),
            Row::Apply { constructor, row } => write!(
                f,
                "constructor {constructor} over row {row}"
            ),
            Row::Tuple { rows, .. } => match rows.len {
                0 => f.write_str("tuple of nothing"),
                1 => write!(f, "tuple of row {}", InWords(rows)),
                _ => write!(f, "tuple of rows {}", InWords(rows)),
            },
            Row::Bind { variable, row, .. } => write!(f, "bind variable {variable} over row {row}"),
        }
    }
}
