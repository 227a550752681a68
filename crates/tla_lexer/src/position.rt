// Lines and columns.
ghost use Rattle.std.specs.Prelude.{◌≡◌, ◌+◌, ◌*◌, ◌^◌, ◌<◌, length, fold, count_by};
ghost use Rattle.tla_lexer.specs.Classes.{is_line_feed};
ghost use Rattle.tla_lexer.specs.Places.{next_column};

use tla_meaning::Place;

/// A line and a column, which count from 1.
#[derive(Clone, Copy, Debug)]
pub(crate) struct Position {
    pub(crate) line: u32,
    pub(crate) column: u32,
}

impl Position {
    /// Where a file begins.
    pub(crate) const START: Position = Position { line: 1, column: 1 };

    /// The position behind these bytes.
    pub(crate) fn behind(self, bytes: &[u8]) -> Position
        requires some { 0 < self.column }
        requires lines { self.line + length bytes.now < 2 ^ 32 }
        requires columns { self.column + 8 * length bytes.now < 2 ^ 32 }
        ensures line { result.line ≡ self.line + count_by is_line_feed bytes.now }
        ensures column { result.column ≡ fold next_column self.column bytes.now }
    {
        let mut line = self.line;
        let mut column = self.column;
        for byte in bytes {
            if *byte == b'\n' {
                line += 1;
            }
            column = next_column(column, *byte);
        }
        Position { line, column }
    }

    pub(crate) fn in_file(self, file: u32) -> Place
        ensures { result ≡ record { file = file; line = self.line; col = self.column } }
    {
        Place {
            file,
            line: self.line,
            col: self.column,
        }
    }
}

// The column behind a byte at this one.
fn next_column(column: u32, byte: u8) -> u32
    requires some { 0 < column }
    requires fits { column + 8 < 2 ^ 32 }
    ensures { result ≡ next_column column byte }
{
    match byte {
        b'\n' => 1,
        b'\t' => 8 * ((column - 1) / 8) + 9,
        128..=191 => column,
        _ => column + 1,
    }
}
