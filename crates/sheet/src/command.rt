//! The commands of a sheet and their bytes.
ghost use Rattle.std.specs.Prelude.{◌≡◌};
ghost use Rattle.sheet.specs.Commands.{operands, Names};

use refusals::Reason;

/// The eleven commands, in the order of their bytes.
#[derive(Clone, Copy, PartialEq, Eq, Debug)]
pub enum Command {
    NameArity,
    DataArity,
    TickArity,
    TupleArity,
    BindingArity,
    Constructor,
    Variable,
    VariableRow,
    ApplyRow,
    TupleRow,
    BindRow,
}

/// The command of a byte; else the byte is unknown.
impl TryFrom<u8> for Command {
    type Error = Reason;

    ghost try_from_gives = { Names };

    // Walks over bytes ask it at every command; a check was measured to take twice as long with a call there.
    #[inline]
    fn try_from(byte: u8) -> Result<Command, Reason> {
        match byte {
            0x01 => Ok(Command::NameArity),
            0x02 => Ok(Command::DataArity),
            0x03 => Ok(Command::TickArity),
            0x04 => Ok(Command::TupleArity),
            0x05 => Ok(Command::BindingArity),
            0x10 => Ok(Command::Constructor),
            0x20 => Ok(Command::Variable),
            0x30 => Ok(Command::VariableRow),
            0x31 => Ok(Command::ApplyRow),
            0x32 => Ok(Command::TupleRow),
            0x33 => Ok(Command::BindRow),
            _ => Err(Reason::Unknown),
        }
    }
}

impl Command {
    /// How many operand bytes follow the command byte in packed form.
    pub fn operands(self) -> usize
        ensures { result ≡ operands self }
    {
        match self {
            Command::NameArity | Command::DataArity | Command::TickArity => 0,
            Command::Variable | Command::VariableRow => 1,
            Command::BindingArity | Command::Constructor | Command::ApplyRow => 2,
            Command::BindRow => 3,
            Command::TupleArity | Command::TupleRow => 5,
        }
    }
}
