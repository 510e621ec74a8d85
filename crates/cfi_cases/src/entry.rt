//! What the lines of a file of cases say.

/// One of the pieces by which the bytes of a file, or of a text, are put together in order.
#[derive(Debug, Drop)]
pub enum Piece {
    /// These bytes, appended.
    Bytes(Vec<u8>),
    /// The bytes of another file of the shelf, appended: all, or so many from a place on.
    File(String, Option<(usize, usize)>),
    /// These bytes in place of those from this place on.
    At(usize, Vec<u8>),
    /// No more than so many of the bytes.
    Cut(usize),
}

/// The words of commands that are run one after the other.
#[derive(Clone, Debug, Drop)]
pub struct Commands {
    /// The commands that end with 0 and print nothing, in order.
    pub first: Vec<Vec<String>>,
    /// The command that is asked for its status and its text.
    pub last: Vec<String>,
}

/// What the first line of an entry says.
#[derive(Debug, Drop)]
pub enum Head {
    /// A shelf without files, and a title.
    Group(String),
    /// A file of this name, whose bytes are the entry's.
    File(String),
    /// The title of the next case.
    Case(String),
    /// The numbers of the shelf's calls that fail in the next case.
    FailShelf(Vec<u32>),
    /// The numbers of the sink's calls that fail in the next case.
    FailSink(Vec<u32>),
    /// The commands of the case.
    Run(Commands),
    /// The status that the last command ends with; the text that it prints is the entry's.
    Status(u8),
    /// The status that the last command ends with; the lines of the entry stand among those that it prints, in order.
    Lines(u8),
    /// A file of this name has the entry's bytes, from this place on where there is one.
    Left(String, Option<usize>),
    /// No file has this name.
    Gone(String),
    /// The gate was passed so often in the last command.
    Gate(u32),
    /// The entry's bytes are a report, or the line of this number is the first one up to which no report goes.
    Report(Option<u32>),
    /// Each row is a case of these commands: its file of this name has the entry's bytes and then the row's.
    Table(String, Commands),
    /// A row: the status, and the text that is printed.
    Row(u8, Vec<u8>),
    /// No line of a file of cases.
    Bad,
}

/// A line that is no piece, and the pieces on the lines after it.
#[derive(Debug, Drop)]
pub struct Entry {
    /// The number of the line, from 1.
    pub line: usize,
    /// What the line says.
    pub head: Head,
    /// The pieces that follow.
    pub pieces: Vec<Piece>,
}
