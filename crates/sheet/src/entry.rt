//! One entry of a sheet.
ghost use Rattle.std.specs.Prelude.{◌≡◌, [], ◌∷◌, slice_index};
ghost use Rattle.sheet.specs.Operands.{operand_list, entry_of};

/// A command byte and five operand bytes; operands that the command lacks are 0 in a lawful sheet.
// The command is a byte, since a source may tell one that names no command. The operands have the letters of the format, by
// which each command reads its own: an array is no plainer, since each would be a number then.
#[derive(Clone, Copy, PartialEq, Eq, Debug)]
pub struct Entry {
    pub command: u8,
    pub a: u8,
    pub b: u8,
    pub c: u8,
    pub d: u8,
    pub e: u8,
}

impl Entry {
    /// The entry of a command byte and its operands.
    pub fn new(command: u8, a: u8, b: u8, c: u8, d: u8, e: u8) -> Entry
        ensures { result ≡ entry_of command (a ∷ b ∷ c ∷ d ∷ e ∷ []) }
    {
        Entry {
            command,
            a,
            b,
            c,
            d,
            e,
        }
    }

    /// The five operands.
    pub fn operands(self) -> [u8; 5]
        ensures { result ≡ operand_list self }
    {
        [self.a, self.b, self.c, self.d, self.e]
    }

    /// Operand `i`, from 0 on; 0 past the fifth.
    pub fn operand(self, i: usize) -> u8
        ensures { result ≡ slice_index (operand_list self) i }
    {
        self.operands().get(i).copied().unwrap_or(0)
    }
}
